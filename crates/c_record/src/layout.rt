// The bytes of a cartridge record: how many they are, and where each field is.
use chip_record::{CHIP_SIZE, layout};

pub const RECORD_SIZE: usize = 25;

pub type RecordBytes = [u8; RECORD_SIZE];

// The image's length is in the bytes before it, low byte first.
pub const KIND: usize = 4;

pub const DIRTY: usize = 5;

// the chip record, as `chip_state` writes it first
pub const CHIP: usize = 6;

pub const FLASH_STATE: usize = CHIP + layout::FLASH_STATE;

pub const BANK: usize = CHIP + layout::BANK;

pub const ID_MODE: usize = CHIP + layout::ID_MODE;

pub const WIDTH: usize = CHIP + layout::WIDTH;

pub const LARGE: usize = CHIP + layout::LARGE;

pub const PHASE: usize = CHIP + layout::PHASE;

pub const COUNT: usize = CHIP + layout::COUNT;

pub const BLOCK: usize = CHIP + layout::BLOCK;

pub const PLACE: usize = CHIP + layout::PLACE;

pub const ACC: usize = CHIP + layout::ACC;

pub const PART: usize = CHIP + CHIP_SIZE;
