// Serial bits out.
ghost use Rattle.std.specs.Prelude.{◌≡◌, true, ◌+◌, ◌*◌, ◌<◌, ◌≤◌, length};
ghost use Rattle.eeprom.specs.Eeprom.{bit_of_block, read_bit, drawn_by, after_read};

use crate::{Drawn, Eeprom, EepromPhase, ended};

// Bit i of a block, highest bit of the first byte first.
#[tactic(auto, unfolding(crate::specs::Eeprom::bit_of_block))]
fn bit_of_block(memory: &[u8], block: usize, i: usize) -> u8
    requires { (i < 64) × (8 * block + 8 ≤ length memory.now) }
    ensures { result ≡ bit_of_block memory.now block i }
{
    let byte = memory[8 * block + i / 8];
    (byte >> (7 - i % 8)) % 2
}

// What the chip answers; `present`: the cartridge has an EEPROM.
#[tactic(auto, using(lists::proofs::Bools::tests), unfolding(crate::specs::Eeprom::read_bit))]
pub fn read_bit(present: bool, e: Eeprom, memory: &[u8]) -> u8
    requires { (e.place < 68) × (present ≡ true → 8 * e.block + 8 ≤ length memory.now) }
    ensures { result ≡ read_bit present e memory.now }
{
    if e.phase != EepromPhase::Reading {
        return 1;
    }
    if e.place < 4 {
        return 0;
    }
    if !present {
        return 1;
    }
    bit_of_block(memory, e.block as usize, e.place as usize - 4)
}

// What a bit out changes of the chip.
pub fn draw(phase: EepromPhase, place: u8) -> Drawn
    requires { place < 68 }
    ensures { result ≡ drawn_by phase place }
{
    if phase != EepromPhase::Reading {
        return Drawn::Nothing;
    }
    if place == 67 {
        return Drawn::Ended;
    }
    Drawn::Place(place + 1)
}

#[tactic(auto, unfolding(crate::specs::Eeprom::after_read))]
pub fn after_read(e: Eeprom) -> Eeprom
    requires { e.place < 68 }
    ensures { result ≡ after_read e }
{
    match draw(e.phase, e.place) {
        Drawn::Nothing => e,
        Drawn::Place(place) => Eeprom { place, ..e },
        Drawn::Ended => ended(e),
    }
}
