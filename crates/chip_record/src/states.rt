// The state that `chip_state` writes, and that restore takes: layout 2, or the 18 bytes of old files.
ghost use Rattle.std.specs.Prelude.{◌≡◌, ◌≤◌, length};
ghost use Rattle.lists.specs.Questions.{asked};
ghost use Rattle.refusal.specs.Refusals.{number_of};
ghost use Rattle.chip_record.specs.ChipState.{chip_record_size, chip_of};
ghost use Rattle.chip_record.specs.States.{state_bytes, eighteen_of, flag_from, state_questions};

use crate::encoding::{chip_bytes, chip_of, field_questions};
use crate::layout::StateBytes;
use crate::{ChipRecord, layout};
use refusal::Refusal;

pub fn state_of(chip: ChipRecord, dirty: bool) -> StateBytes
    ensures { result ≡ state_bytes chip dirty }
{
    let mut state = [0; layout::STATE_SIZE];
    state[..layout::CHIP_SIZE].copy_from_slice(&chip_bytes(chip));
    state[layout::FLAG] = lists::bit(dirty);
    state[layout::LAYOUT] = layout::LAYOUT_2;
    state
}

// Questions 6, 17, 7 to 12 and 18, of a file's bytes, in this order.
pub fn state_questions(b: &[u8]) -> Result<(), Refusal>
    ensures { number_of result ≡ asked (state_questions b.now) }
{
    if b.len() == layout::CHIP_SIZE {
        return field_questions(b);
    }
    if b.len() != layout::STATE_SIZE {
        return Err(Refusal::StateLength);
    }
    if b[layout::LAYOUT] != layout::LAYOUT_2 {
        return Err(Refusal::StateLayout);
    }
    field_questions(&b[..layout::CHIP_SIZE])?;
    if 1 < b[layout::FLAG] {
        return Err(Refusal::StateFlag);
    }
    Ok(())
}

// The flag after a restore: the state's, or, of 18 bytes, the record's own.
pub fn flag_from(b: &[u8], dirty: bool) -> bool
    ensures { result ≡ flag_from b.now dirty }
{
    let n = b.len();
    if n != layout::STATE_SIZE {
        return dirty;
    }
    b[layout::FLAG] == 1
}

// The chip record of a state of either length.
pub fn chip_in(b: &[u8]) -> ChipRecord
    requires { chip_record_size ≤ length b.now }
    ensures { result ≡ chip_of (eighteen_of b.now) }
{
    chip_of(&b[..layout::CHIP_SIZE])
}
