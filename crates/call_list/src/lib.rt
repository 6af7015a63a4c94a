// A list of calls and cuts, encoded: which item is at each place, and whether the list can be played.

#![tactic(auto)]

mod items;
mod surveying;

pub use items::{ending_room, item_in, item_length, item_room};
pub use surveying::ask_list;

// One item of an encoded list. The bytes of a file follow its length.
// Kept: `Bad` is an item of one byte, after which the definition `items` goes on, and not a missing one.
#[derive(Clone, Copy)]
pub enum Item {
    SaveRead(u32),
    SaveWrite(u32, u8),
    EepromRead,
    EepromWrite(u16),
    BeginDma(u16),
    TakeFlag,
    ChipState,
    LoadSave(usize),
    SaveData(usize),
    Cut,
    Bad,
}

// What is known of a list: whether it has only items, whether a byte write is among them, and how many bytes of the
// output are left, if the answers fit into it.
#[derive(Clone, Copy)]
pub struct Survey {
    pub good: bool,
    pub writes: bool,
    pub left: Option<usize>,
}
