// How many bytes a store changes, how many bytes are in use, and the tallies of these by stretches of 4,096 bytes.

#![tactic(auto)]

mod counting;
mod tallies;

pub use counting::{byte_differs, differing_short, used, used_short};
pub use tallies::{NONE_IN_USE, clear, first_in_use, is_blank, retally};
