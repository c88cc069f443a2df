//! The language of the case files in which the air is told: a line has words, each with the numbers that it needs.
//! `words` reads a line, `setting` the words that say a topology and a world, and `answer` those that are answers. What
//! the other words do or ask is each file's library; a word that it does not know ends its run. They are:
//!
//! - `topo`: nodes, limit, latency and byte time of a topology; it has no links and no spans yet.
//! - `links`: links, each by the node that is heard and the node that hears.
//! - `own`: the links' own latencies.
//! - `spans`: spans, each by the place of its link, its first cycle and the cycle after its last.
//! - `sends`: sends, each by its node, cycle and byte.
//! - `asks`: samples of the world, each by its node and cycle.
//! - `open`: begins the record of the world: no cycle is passed, and nothing is posted.
//! - `r`: a node raises its clock to a cycle.
//! - `p`: a node posts: its send of this number, or its next one where no number is told.
//! - `s`: a node samples in a cycle.
//! - `try`: a node tries to sample in a cycle.
//! - `wait`: a node samples in a cycle, as soon as it may.
//! - `halt`: a node tells all nodes to halt.
//! - `cut`: the record is cut at a floor.
//! - `added`: the answer: the send is recorded now.
//! - `there`: the answer: it was recorded before.
//! - `early`: the answer: only so many sends of its node are posted.
//! - `told`: the answer: the node has seen that so many of its sends are posted.
//! - `halted`: the answer: a node has told all nodes to halt.
//! - `quiet`: the answer: nothing is heard.
//! - `byte`: the answer: one byte is heard, of this age.
//! - `clash`: the answer: several bytes clash, to this one.
//! - `waits`: the answer: the sample has to wait for this node, whose clock this is.
//! - `done`: the answer: the record is cut.
//! - `behind`: the answer: this node is behind the cycle of the cut, and this is its clock.
//! - `record`: the recorded sends, each by its node, cycle and byte.
//! - `samples`: the recorded samples, each by its node and cycle, and the status, byte and age that it heard.
//! - `floor`: the cycle up to which the record is cut.
//! - `many`: so many spans of the first link, each of one cycle, two cycles apart.
//! - `steps`: an empty list of steps.
//! - `clocks`: each node's clock, in a state.
//! - `sent`: the number of each node's posted sends, in a state.
//! - `log`: begins a record of sends, with room for so many.
//! - `push`: posts sends to the record, each by its node, cycle and byte.
//! - `new`: asks whether these numbers are a topology: of `Topo::new`.
//! - `with_latencies`: asks whether they are one with the links' own latencies: of `Topo::with_latencies`.
//! - `with_spans`: asks whether they are one with these latencies and the spans: of `Topo::with_spans`.
//! - `world`: asks whether the lists are a world.
//! - `linked`: asks whether one node hears another.
//! - `latency_of`: asks how long a byte takes from one node to another.
//! - `reach`: asks for the greatest latency.
//! - `is_open`: asks whether the link from one node to another is open in a cycle.
//! - `needs`: asks whether one node may hear a byte of another in a cycle.
//! - `at`: asks what a node hears in a cycle of all the sends.
//! - `replay`: asks to what the steps lead.
//! - `then`: asks what a sample is answered after the steps.
//! - `listen`: asks what a node hears in a cycle of the record of sends.
//! - `kept`: asks what the record of sends holds.
//! - `consistent`: asks whether the state is consistent.
//! - `ok`: the answer: it is accepted.
//! - `range`: the answer: a number is out of its range.
//! - `self_link`: the answer: the link at this place goes to its own node.
//! - `twice_linked`: the answer: the link at this place equals an earlier one.
//! - `send_order`: the answer: the send at this place breaks a law.
//! - `ask_order`: the answer: the sample at this place breaks a law.
//! - `yes`: the answer.
//! - `no`: the answer.
//! - `is`: the answer: this number.
//! - `illegal`: the answer: the step at this place is the first that is not allowed.
//! - `state`: the answer: the state or the record that is given.
#![tactic(auto)]

mod answer;
mod asking;
mod fault;
mod lines;
mod setting;
mod words;

pub use answer::Answer;
pub use asking::{count_below, is_asked, own_sends, send_number};
pub use fault::Fault;
pub use lines::{Answers, Lines, run_lines};
pub use setting::{Setting, copy_of, samples_of, send_of, sends_of};
pub use words::{Section, byte_of, sections_of};
