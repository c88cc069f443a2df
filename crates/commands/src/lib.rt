//! The program: from the words of the command line, the files and the streams to a status. Files are read, which leaves
//! a job (`prepare`); the job is done, which writes rows, a listing or a report; and the end is reported. The one
//! clause of the top call `avrora`, `TopClause`, says what each status wrote, and when it comes; `avrora_alone` is the
//! same on one thread. `run` and `make` give each node of their network a thread; all other jobs are done on one.
//! `run_program` is the program but for what is real: `main` hands in the process's words, files and streams. So the
//! gate runs the program itself over others.
#![tactic(auto)]

mod alone;
mod checkpoints;
mod frames;
mod image;
mod job;
mod listing;
mod looks;
mod network;
mod profiles;
mod program;
mod reading;
mod sample;
mod spans;
mod sweeps;
mod threads;
mod top;
mod trace;
mod watch;
mod watches;
mod watching;

pub use alone::avrora_alone;
pub use command_plans::Status;
pub use program::run_program;
pub use top::avrora;
