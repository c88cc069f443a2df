//! Calls of the whole program, in cases of four kinds: traces of nodes over real files; and over files and streams in
//! memory single calls, runs of whole networks, and calls that fail at every place. What each comes to is written, to
//! be compared with what docs/FORMATS.md says and slow programs give that share nothing with this one
//! (`bench/machine.py`, `bench/network`).
#![tactic(auto)]

mod call_cases;
mod call_lines;
mod call_texts;
mod calling;
mod fault_cases;
mod fault_lines;
mod files;
mod foreign;
mod held;
mod network_cases;
mod network_lines;
mod network_runs;
mod network_texts;
mod rows;
mod series;
mod shown;
mod starved;
mod trace_cases;
mod trying;

pub use call_cases::do_calls;
pub use fault_cases::do_faults;
pub use network_cases::do_networks;
pub use trace_cases::do_traces;
