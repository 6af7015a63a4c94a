// What the tallies tell, and the same by a full reading of the memory.
use cart::Cartridge;
use counts::NONE_IN_USE;
use refusal::Refusal;
use std::fmt;

// Whether the memory is blank, and the first stretch in use.
#[derive(Clone, Copy, PartialEq, Eq)]
pub struct Stretches {
    blank: u32,
    // Kept: NONE_IN_USE for none, as `state_calls::first_in_use` answers.
    first: u32,
}

// As a line has it.
impl fmt::Display for Stretches {
    fn fmt<W: fmt::Write>(&self, f: &mut fmt::Formatter<W>) -> fmt::Result {
        let blank = self.blank;
        let first = self.first;
        write!(f, "00{blank:02X}{first:08X}")
    }
}

fn first_used(memory: &[u8]) -> Option<u32> {
    let place = memory.iter().position(|byte| *byte != 0xFF)?;
    Some((place / 4096 % 4294967296) as u32)
}

pub fn by_reading(cart: Cartridge, memory: &[u8]) -> Stretches {
    let n = kind::memory_size(cart.kind).min(memory.len());
    let first = first_used(&memory[..n]);
    Stretches {
        blank: u32::from(first.is_none()),
        first: first.unwrap_or(NONE_IN_USE),
    }
}

pub fn by_tallies(cart: Cartridge, tallies: &[u16]) -> Result<Stretches, Refusal> {
    let n = kind::tally_count(cart.kind).min(tallies.len());
    Ok(Stretches {
        blank: state_calls::is_blank(cart, &tallies[..n])?,
        first: state_calls::first_in_use(cart, &tallies[..n])?,
    })
}
