// The refusals, each by the question whose answer is no.

#![tactic(auto)]

ghost use Rattle.std.specs.Prelude.{◌≡◌};
ghost use Rattle.refusal.specs.Refusals.{refusal_number};

// The numbers are those of the questions.
#[derive(Clone, Copy, Debug, PartialEq, Eq)]
pub enum Refusal {
    ImageLength = 1,
    Record = 2,
    MemoryLength = 3,
    NoEeprom = 4,
    DmaTooLate = 5,
    StateLength = 6,
    StatePhase = 7,
    StateFlash = 8,
    StateSwitches = 9,
    StateWidth = 10,
    StateRanges = 11,
    StateCount = 12,
    DestinationLength = 13,
    FileLength = 14,
    Part = 15,
    TallyCount = 16,
    StateLayout = 17,
    StateFlag = 18,
    UpperHalf = 19,
    // of an encoded list: it has a byte write and the kind an EEPROM; it is no list of items
    ByteWrite = 0xFE,
    NoList = 0xFF,
}

impl Refusal {
    pub fn number(self) -> u8
        ensures { result ≡ refusal_number self }
    {
        self as u8
    }
}
