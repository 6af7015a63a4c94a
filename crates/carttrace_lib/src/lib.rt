// carttrace as a library: characters to lines, lines to calls, answers to lines.

#![tactic(auto)]

mod characters;
mod one_frame;

use cart::Cartridge;
pub use characters::{feed, finish, opened, over};
use frames::Line;
pub use one_frame::play;

// The record after a frame, and the length of its line.
#[derive(Clone, Copy)]
pub struct Played {
    pub cart: Cartridge,
    pub len: usize,
}

// Before line 1; after a line 1 that named a kind; after one that did not.
#[derive(Clone, Copy)]
pub enum Stage {
    First,
    Playing,
    Over,
}

// The state between two characters.
#[derive(Clone, Copy)]
pub struct Session {
    pub stage: Stage,
    pub line: Line,
    pub cart: Cartridge,
}

// The session after some input, and the length of what it printed.
#[derive(Clone, Copy)]
pub struct Told {
    pub session: Session,
    pub len: usize,
}
