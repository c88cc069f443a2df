//! What the outside is to a call: a store of files to read from and a sink of bytes to write to. Both are traits with a
//! count of their faults and an optional meaning, so that a contract can say what was read and written where the
//! outside tells. Forms over memory (`memory_io`) tell all. Those here are the trusted edge to the real system: its
//! files tell nothing, and a stream what its writer tells, which a real one does not. And the digits of which every
//! line that goes out is made, appended to a text of fixed capacity: hexadecimal, decimal, and the signed distance of a
//! jump. Each such call says how much room it wants, which bytes it appends, and how many at most.
#![tactic(auto)]

mod decimal;
mod dir_store;
mod hex;
mod name;
mod page;
mod sink;
mod std_sink;
mod store;

pub use decimal::{put_decimal, put_distance};
pub use dir_store::{DirStore, read_whole};
pub use hex::{put_hex2, put_hex4};
pub use name::Name;
pub use page::make_room;
pub use sink::{Sink, SinkFault, write_all};
pub use std_sink::StdSink;
pub use store::{ReadFault, Store};
