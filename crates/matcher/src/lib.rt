// The kind of an image in a single reading: a matcher for all five markers, handed the image's bytes from the front.

#![tactic(auto)]

mod feeding;
mod quiet;
mod searching;
mod step;

pub use feeding::feed;
use kind::SaveType;
pub use searching::{detect_save_type, finish, search};
pub use step::start;

// Which markers were seen, and the last nine bytes, newest first.
#[derive(Clone, Copy)]
pub struct Matcher {
    pub sram: bool,
    pub flash64: bool,
    pub flash128: bool,
    pub eeprom: bool,
    pub last: [u8; 9],
}

// A matcher, and how many bytes it was handed.
#[derive(Clone, Copy)]
pub struct Fed {
    pub matcher: Matcher,
    pub count: usize,
}

// The kind of an image, and how many of its bytes were handed to the matcher.
#[derive(Clone, Copy)]
pub struct Found {
    pub kind: SaveType,
    pub count: usize,
}
