// cuttrace as a library: the lines of a trace as a list of calls and cuts, the list replayed, its answers as lines.

#![tactic(auto)]

mod digits;
mod lines;
mod printing;
mod rooms;
mod setup;
mod whole;

pub use rooms::{large_room, output_room, room, trace_room};
pub use whole::{run_trace, settled};
