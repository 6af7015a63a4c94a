// The kinds of save memory, and which one an image has.

#![tactic(auto)]

mod header;
mod markers;

ghost use Rattle.std.specs.Prelude.{◌≡◌};
ghost use Rattle.kind.specs.Kind.{Numbered, kind_number, kind_of, memory_size, tally_count, uses_eeprom, window_start};

pub use header::{flash_code, ruby_title, sram_code};
pub use markers::{detect_save_type, eeprom_kind};

#[derive(Clone, Copy, PartialEq, Eq, Debug)]
pub enum SaveType {
    None,
    Sram,
    Flash64,
    Flash128,
    Eeprom512,
    Eeprom8k,
}

pub fn kind_number(kind: SaveType) -> usize
    ensures { result ≡ kind_number kind }
{
    kind as usize
}

// A number that is no kind's.
#[derive(Clone, Copy, PartialEq, Eq, Debug)]
pub struct UnknownKind;

impl TryFrom<u32> for SaveType {
    type Error = UnknownKind;

    ghost try_from_gives = { Numbered };

    fn try_from(n: u32) -> Result<Self, UnknownKind> {
        match n {
            0 => Ok(SaveType::None),
            1 => Ok(SaveType::Sram),
            2 => Ok(SaveType::Flash64),
            3 => Ok(SaveType::Flash128),
            4 => Ok(SaveType::Eeprom512),
            5 => Ok(SaveType::Eeprom8k),
            _ => Err(UnknownKind),
        }
    }
}

// A kind by its number; any number above 5 gives Eeprom8k.
#[tactic(auto, unfolding(crate::specs::Kind::kind_of))]
pub fn kind_of(n: u8) -> SaveType
    ensures { result ≡ kind_of n }
{
    SaveType::try_from(n as u32).unwrap_or(SaveType::Eeprom8k)
}

pub fn memory_size(kind: SaveType) -> usize
    ensures { result ≡ memory_size kind }
{
    match kind {
        SaveType::None => 0,
        SaveType::Sram => 32768,
        SaveType::Flash64 => 65536,
        SaveType::Flash128 => 131072,
        SaveType::Eeprom512 | SaveType::Eeprom8k => 8192,
    }
}

// A tally for each 4,096 bytes of memory.
pub fn tally_count(kind: SaveType) -> usize
    ensures { result ≡ tally_count kind }
{
    memory_size(kind) / 4096
}

pub fn uses_eeprom(kind: SaveType) -> bool
    ensures { result ≡ uses_eeprom kind }
{
    matches!(kind, SaveType::Eeprom512 | SaveType::Eeprom8k)
}

// Where the EEPROM is on the bus, by the image's length.
pub fn window_start(length: usize) -> u32
    ensures { result ≡ window_start length }
{
    if 16777216 < length {
        0x0DFFFF00
    } else {
        0x0D000000
    }
}
