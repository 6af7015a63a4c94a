// The chip record: its bytes, which of them are allowed, and the states that hold it.

#![tactic(auto)]

mod encoding;
pub mod layout;
mod states;

use eeprom::Eeprom;
pub use encoding::{chip_allowed, chip_bytes, chip_of, field_questions, phase_number};
use flash::Flash;
pub use layout::{CHIP_SIZE, STATE_SIZE, StateBytes};
pub use states::{chip_in, flag_from, state_of, state_questions};

// The first 18 bytes of `chip_state`.
#[derive(Clone, Copy)]
pub struct ChipRecord {
    pub flash: Flash,
    pub eeprom: Eeprom,
}
