// Opening, the chip's state, and what a record tells in one number, on the bytes of a record.

#![tactic(auto)]

mod states;
mod values;

pub use states::{chip_state, from_bytes, restore_chip_state};
pub use values::{eeprom_window_start, first_in_use, is_blank, take_save_dirty, uses_eeprom};
