// The call of a C program, which links it by `replay_c`.
ghost use Rattle.std.specs.Prelude.{◌≡◌, length};
ghost use Rattle.lists.specs.Questions.{asked};
ghost use Rattle.refusal.specs.Refusals.{number_of};
ghost use Rattle.replay.specs.Replay.{replay_questions, replay};

use crate::running::open_and_run;
use refusal::Refusal;

// Err is the first question whose answer is no.
fn ask(
    image: &[u8],
    part: u32,
    list: &[u8],
    memory: &[u8],
    scratch: usize,
    out: usize,
) -> Result<(), Refusal>
    ensures { number_of result
        ≡ asked (replay_questions image.now part list.now
        memory.now scratch out) }
{
    image::ask_length(image.len())?;
    let kind = matcher::detect_save_type(image);
    if memory.len() != kind::memory_size(kind) {
        return Err(Refusal::MemoryLength);
    }
    if !part::number_fits(part, kind) {
        return Err(Refusal::Part);
    }
    call_list::ask_list(list, kind::uses_eeprom(kind), memory.len(), scratch, out)
}

// Room for the most tallies that a kind has.
fn room() -> [u16; 32]
    ensures { length result ≡ 32 }
{
    [0; 32]
}

// Returns 0 or a refusal's number. A refused call changes nothing.
pub fn gbasave_replay(
    image: &[u8],
    part: u32,
    list: &[u8],
    memory: &mut [u8],
    scratch: &mut [u8],
    out: &mut [u8],
) -> u32
    ensures { (result, memory.new, scratch.new, out.new)
        ≡ replay image.now part list.now
        memory.old scratch.old out.old }
{
    if let Err(refusal) = ask(image, part, list, memory, scratch.len(), out.len()) {
        return u32::from(refusal.number());
    }
    let mut tallies = room();
    let n = memory.len() / 4096;
    open_and_run(image, part, list, memory, &mut tallies[..n], scratch, out);
    scratch.fill(0);
    0
}
