// The flash parts of GBATEK's list: their sizes, their ID words, and which kinds they fit.

#![tactic(auto)]

ghost use Rattle.std.specs.Prelude.{◌≡◌};
ghost use Rattle.part.specs.Part.{Numbered, part_number, part_of, part_size, part_word, usual_word, id_word};
ghost use Rattle.part.specs.Part.{number_fits, part_fits};

use kind::SaveType;

// The chip that a maker put in, or the usual one of the kind.
#[derive(Clone, Copy, PartialEq, Eq, Debug)]
pub enum Part {
    Usual,
    Sst64,
    Macronix64,
    Panasonic64,
    Sanyo128,
    Macronix128,
}

// By part number: how many bytes a named part has, and its ID word, maker in the low byte, device in the high byte.
// It is a static, since a read of a constant would copy it whole.
static NAMED_PARTS: [(usize, u16); 6] = [
    (0, 0),
    (65536, 0xD4BF),
    (65536, 0x1CC2),
    (65536, 0x1B32),
    (131072, 0x1362),
    (131072, 0x09C2),
];

// ID words of the usual part, by kind number.
const USUAL_ID_WORDS: [u16; 6] = [0, 0, 0x1B32, 0x1362, 0, 0];

pub fn part_number(part: Part) -> usize
    ensures { result ≡ part_number part }
{
    part as usize
}

// A number that is no part's.
#[derive(Clone, Copy, PartialEq, Eq, Debug)]
pub struct UnknownPart;

impl TryFrom<u32> for Part {
    type Error = UnknownPart;

    ghost try_from_gives = { Numbered };

    fn try_from(n: u32) -> Result<Self, UnknownPart> {
        match n {
            0 => Ok(Part::Usual),
            1 => Ok(Part::Sst64),
            2 => Ok(Part::Macronix64),
            3 => Ok(Part::Panasonic64),
            4 => Ok(Part::Sanyo128),
            5 => Ok(Part::Macronix128),
            _ => Err(UnknownPart),
        }
    }
}

// A part by its number; any number above 5 gives Macronix128.
#[tactic(auto, unfolding(crate::specs::Part::part_of))]
pub fn part_of(n: u32) -> Part
    ensures { result ≡ part_of n }
{
    Part::try_from(n).unwrap_or(Part::Macronix128)
}

fn named_size(part: Part) -> usize
    ensures { result ≡ part_size part }
{
    let (size, _) = NAMED_PARTS[part as usize];
    size
}

// A named part has the kind's size; the usual one fits every kind.
#[tactic(auto, unfolding(crate::specs::Part::part_fits))]
pub fn part_fits(part: Part, kind: SaveType) -> bool
    ensures { result ≡ part_fits part kind }
{
    part == Part::Usual || named_size(part) == kind::memory_size(kind)
}

// Of a part's number; one that names no part fits no kind.
#[tactic(auto, using(lists::proofs::Bools::tests), unfolding(crate::specs::Part::part_of))]
pub fn number_fits(n: u32, kind: SaveType) -> bool
    ensures { result ≡ number_fits n kind }
{
    Part::try_from(n).is_ok_and(|part| part_fits(part, kind))
}

fn named_word(part: Part) -> u16
    ensures { result ≡ part_word part }
{
    let (_, word) = NAMED_PARTS[part as usize];
    word
}

fn usual_word(kind: SaveType) -> u16
    ensures { result ≡ usual_word kind }
{
    USUAL_ID_WORDS[kind as usize]
}

// What ID mode shows.
#[tactic(auto, unfolding(crate::specs::Part::id_word))]
pub fn id_word(part: Part, kind: SaveType) -> u16
    ensures { result ≡ id_word part kind }
{
    if part == Part::Usual {
        usual_word(kind)
    } else {
        named_word(part)
    }
}
