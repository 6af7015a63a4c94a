// The serial EEPROM: bytes 3 to 17 of the chip record.

#![tactic(auto)]

mod input;
mod output;
mod phases;

ghost use Rattle.std.specs.Prelude.{◌≡◌};
ghost use Rattle.eeprom.specs.Eeprom.{width_allowed, w, told, tells6};
ghost use Rattle.eeprom.specs.Eeprom.{tells14, begin_dma, dma_question};
ghost use Rattle.eeprom.specs.Eeprom.{ended};

pub use input::{shift, turn, write_bit};
use memory::Store;
pub use output::{after_read, draw, read_bit};
pub use phases::count_limit;

#[derive(Clone, Copy, PartialEq, Eq)]
pub enum EepromPhase {
    Opcode,
    ReadAddress,
    WriteAddress,
    WriteData,
    ReadStop,
    WriteStop,
    Reading,
}

#[derive(Clone, Copy)]
pub struct Eeprom {
    // address bits that a DMA has told, 0: not told
    // Kept: a byte of the chip record as C and old states bring it, which `width_allowed` asks.
    pub width: u8,
    pub large: bool,
    pub phase: EepromPhase,
    pub count: u8,
    pub block: u16,
    // the read place
    pub place: u8,
    pub acc: u64,
}

// One bit shifted in: more are wanted, with their count, or the number is whole.
// Kept: both cases carry a value and neither is a failure, which Option and Result would say.
#[derive(Clone, Copy)]
pub enum Shifted {
    More(u64, u8),
    Full(u64),
}

// What a bit in leads to: the chip, and what is to be stored.
// Kept: clauses and definitions call the chip by its name; a step generic in the chip would lose it.
#[derive(Clone, Copy)]
pub struct EepromStep {
    pub eeprom: Eeprom,
    pub store: Store,
}

// What a bit out changes: nothing, the read place, or the read is over.
// Kept: three cases, where Option has two.
#[derive(Clone, Copy)]
pub enum Drawn {
    Nothing,
    Place(u8),
    Ended,
}

#[tactic(auto, using(lists::proofs::Bools::tests), unfolding(crate::specs::Eeprom::width_allowed))]
pub fn width_allowed(width: u8) -> bool
    ensures { result ≡ width_allowed width }
{
    matches!(width, 0 | 6 | 14)
}

// The address bits of the chip.
#[tactic(auto, using(lists::proofs::Bools::tests), unfolding(crate::specs::Eeprom::w))]
pub fn w(width: u8, large: bool) -> u8
    ensures { result ≡ w width large }
{
    if width != 0 {
        return width;
    }
    if large { 14 } else { 6 }
}

pub fn told(width: u8, large: bool, e: Eeprom) -> Eeprom
    ensures { result ≡ told width large e }
{
    Eeprom { width, large, ..e }
}

#[tactic(auto, using(lists::proofs::Bools::tests), unfolding(crate::specs::Eeprom::tells6))]
fn tells6(words: usize) -> bool
    ensures { result ≡ tells6 words }
{
    matches!(words, 9 | 73)
}

#[tactic(auto, using(lists::proofs::Bools::tests), unfolding(crate::specs::Eeprom::tells14))]
fn tells14(words: usize) -> bool
    ensures { result ≡ tells14 words }
{
    matches!(words, 17 | 81)
}

#[tactic(auto, unfolding(crate::specs::Eeprom::begin_dma))]
pub fn begin_dma(words: usize, e: Eeprom) -> Eeprom
    ensures { result ≡ begin_dma words e }
{
    if tells6(words) {
        return told(6, e.large, e);
    }
    if tells14(words) {
        return told(14, true, e);
    }
    e
}

// Question 5.
#[tactic(auto, unfolding(crate::specs::Eeprom::dma_question))]
pub fn dma_allowed(words: usize, e: Eeprom) -> bool
    ensures { result ≡ (dma_question words e).yes }
{
    if !tells6(words) {
        return true;
    }
    !phases::is_address(e.phase) || e.count < 6
}

// A read is over or abandoned.
fn ended(e: Eeprom) -> Eeprom
    ensures { result ≡ ended e }
{
    Eeprom {
        phase: EepromPhase::Opcode,
        count: 0,
        place: 0,
        acc: 0,
        ..e
    }
}
