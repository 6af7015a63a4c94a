// The bytes of a chip record and of a state: how many they are, and where each field is.

pub const CHIP_SIZE: usize = 18;

pub type ChipBytes = [u8; CHIP_SIZE];

pub const FLASH_STATE: usize = 0;

pub const BANK: usize = 1;

pub const ID_MODE: usize = 2;

pub const WIDTH: usize = 3;

pub const LARGE: usize = 4;

pub const PHASE: usize = 5;

pub const COUNT: usize = 6;

pub const BLOCK: usize = 7;

pub const PLACE: usize = 9;

pub const ACC: usize = 10;

// A state of layout 2: the chip record, the changed flag, the layout's number.
pub const STATE_SIZE: usize = 20;

pub type StateBytes = [u8; STATE_SIZE];

pub const FLAG: usize = 18;

pub const LAYOUT: usize = 19;

pub const LAYOUT_2: u8 = 2;
