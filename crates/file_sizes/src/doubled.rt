// Doubled SRAM files: the half that import drops, and the questions of a file.
ghost use Rattle.std.specs.Prelude.{◌≡◌, true, ◌≤◌, length};
ghost use Rattle.lists.specs.Questions.{asked};
ghost use Rattle.refusal.specs.Refusals.{number_of};
ghost use Rattle.file_sizes.specs.SaveFit.{save_fit, taken};
ghost use Rattle.file_sizes.specs.Doubled.{doubled, blank_or_copy, drop_accepted, file_questions};

use crate::takes;
use kind::SaveType;
use refusal::Refusal;

// Of the lengths that an SRAM takes, the two longer ones are doubled.
#[tactic(auto, using(crate::proofs::Halves::sram_longer))]
fn is_doubled(kind: SaveType, file: usize) -> bool
    requires { taken (save_fit kind file) ≡ true }
    ensures { result ≡ doubled kind file }
{
    kind == SaveType::Sram && 65536 <= file
}

// Whether the upper half is all FFh or equal to the lower one. Each test ends at the first byte that decides.
#[tactic(auto, using(crate::proofs::Halves::same_long), unfolding(crate::specs::Doubled::blank_or_copy, crate::specs::Doubled::lower_half, crate::specs::Doubled::upper_half))]
fn blank_or_copy(file: &[u8]) -> bool
    requires { 65536 ≤ length file.now }
    ensures { result ≡ blank_or_copy file.now }
{
    let lower = &file[..32768];
    let upper = &file[32768..65536];
    lists::all_ff(upper) || lists::begins(upper, lower)
}

#[tactic(auto, using(crate::proofs::Halves::doubled_least), unfolding(crate::specs::Doubled::drop_accepted))]
fn drop_accepted(kind: SaveType, file: &[u8]) -> bool
    requires { taken (save_fit kind (length file.now)) ≡ true }
    ensures { result ≡ drop_accepted kind file.now }
{
    !is_doubled(kind, file.len()) || blank_or_copy(file)
}

// Questions 14 and 19, in this order.
pub fn file_door(kind: SaveType, file: &[u8]) -> Result<(), Refusal>
    ensures { number_of result ≡ asked (file_questions kind file.now) }
{
    if !takes(kind, file.len()) {
        return Err(Refusal::FileLength);
    }
    if !drop_accepted(kind, file) {
        return Err(Refusal::UpperHalf);
    }
    Ok(())
}
