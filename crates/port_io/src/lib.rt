//! Where bytes come from and where they go: devices whose faults are counted, a whole input read at
//! once up to a limit, and a piece written whole.
#![tactic(auto)]

mod adapters;
mod devices;
mod memory;
mod transfers;

pub use adapters::{ReadSource, WriteSink};
pub use devices::{Failed, Sink, Source};
pub use memory::{MemSink, MemSource, SureSource};
pub use transfers::{ReadFault, read_all, write_piece};
