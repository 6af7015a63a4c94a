// Serial bits in.
ghost use Rattle.std.specs.Prelude.{◌≡◌, ◌<◌};
ghost use Rattle.eeprom.specs.Eeprom.{w_of, count_limit, serial, kept, shift_in};
ghost use Rattle.eeprom.specs.Eeprom.{entered, opcode_phase};
ghost use Rattle.eeprom.specs.Eeprom.{decoded, opcode_bit};
ghost use Rattle.eeprom.specs.Eeprom.{addressed, word_in, turned, write_bit};

use crate::phases::count_limit;
use crate::{Eeprom, EepromPhase, EepromStep, Shifted, ended, w};
use memory::Store;

fn kept(e: Eeprom) -> EepromStep
    ensures { result ≡ kept e }
{
    EepromStep {
        eeprom: e,
        store: Store::Nothing,
    }
}

// One bit of a number of 1, 2, 6, 14 or 64.
#[tactic(auto, using(crate::proofs::Bits::put_in), unfolding(crate::specs::Eeprom::shift_in))]
fn shift_in(acc: u64, count: u8, length: u8, b: u64) -> Shifted
    requires { (count < 255) × (b < 2) }
    ensures { result ≡ shift_in acc count length b }
{
    let shifted = acc << 1 | b;
    if count + 1 == length {
        return Shifted::Full(shifted);
    }
    Shifted::More(shifted, count + 1)
}

// A bit of the phase's number. A stop bit is a number of one bit, and so is a bit that ends a read.
pub fn shift(phase: EepromPhase, count: u8, w: u8, acc: u64, b: u64) -> Shifted
    requires { (count < 255) × (b < 2) }
    ensures { result ≡ shift_in acc count (count_limit phase w) b }
{
    shift_in(acc, count, count_limit(phase, w), b)
}

// The number wants more bits.
fn more(e: Eeprom, acc: u64, count: u8) -> EepromStep
    ensures { result ≡ kept (serial e e.phase count e.block e.place acc) }
{
    kept(Eeprom { count, acc, ..e })
}

// The start of a phase.
fn entered(e: Eeprom, phase: EepromPhase, block: u16) -> Eeprom
    ensures { result ≡ entered e phase block }
{
    Eeprom {
        phase,
        count: 0,
        block,
        acc: 0,
        ..e
    }
}

#[tactic(auto, using(lists::proofs::Bools::tests), unfolding(crate::specs::Eeprom::opcode_phase))]
fn opcode_phase(acc: u64) -> EepromPhase
    ensures { result ≡ opcode_phase acc }
{
    match acc {
        3 => EepromPhase::ReadAddress,
        2 => EepromPhase::WriteAddress,
        _ => EepromPhase::Opcode,
    }
}

// A whole opcode.
fn decoded(e: Eeprom, acc: u64) -> EepromStep
    ensures { result ≡ decoded e acc }
{
    kept(entered(e, opcode_phase(acc), e.block))
}

// The Opcode step.
#[tactic(auto, unfolding(crate::specs::Eeprom::opcode_bit))]
fn opcode_bit(e: Eeprom, b: u64) -> EepromStep
    requires { (e.count < 255) × (b < 2) }
    ensures { result ≡ opcode_bit e b }
{
    match shift_in(e.acc, e.count, 2, b) {
        Shifted::More(acc, count) => more(e, acc, count),
        Shifted::Full(acc) => decoded(e, acc),
    }
}

// A whole address.
fn addressed(next: EepromPhase, e: Eeprom, acc: u64) -> EepromStep
    ensures { result ≡ addressed next e acc }
{
    kept(entered(e, next, (acc % 1024) as u16))
}

// A whole data word.
fn word_in(e: Eeprom, acc: u64) -> EepromStep
    ensures { result ≡ word_in e acc }
{
    EepromStep {
        eeprom: entered(e, EepromPhase::WriteStop, e.block),
        store: Store::Block(e.block as usize, acc),
    }
}

// What the last bit of a phase leads to; acc is the whole number.
#[tactic(auto, unfolding(crate::specs::Eeprom::turned))]
pub fn turn(e: Eeprom, acc: u64, b: u64) -> EepromStep
    requires { b < 2 }
    ensures { result ≡ turned e acc b }
{
    match e.phase {
        EepromPhase::Opcode => decoded(e, acc),
        EepromPhase::ReadAddress => addressed(EepromPhase::ReadStop, e, acc),
        EepromPhase::WriteAddress => addressed(EepromPhase::WriteData, e, acc),
        EepromPhase::WriteData => word_in(e, acc),
        EepromPhase::ReadStop => kept(Eeprom {
            phase: EepromPhase::Reading,
            place: 0,
            ..e
        }),
        EepromPhase::WriteStop => kept(entered(e, EepromPhase::Opcode, e.block)),
        EepromPhase::Reading => opcode_bit(ended(e), b),
    }
}

// While the number wants more bits, only count and acc change.
pub fn write_bit(e: Eeprom, b: u64) -> EepromStep
    requires { (e.count < count_limit e.phase (w_of e)) × (e.count < 255) × (b < 2) }
    ensures { result ≡ write_bit e b }
{
    match shift(e.phase, e.count, w(e.width, e.large), e.acc, b) {
        Shifted::More(acc, count) => more(e, acc, count),
        Shifted::Full(acc) => turn(e, acc, b),
    }
}
