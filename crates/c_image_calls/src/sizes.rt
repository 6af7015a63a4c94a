// The sizes of files and memories.
// Kept: a call answers the number of a refusal, which C is returned.
ghost use Rattle.out_params.specs.Places.{answered_at, fit_answer, memory_size_answer, size_answer};
ghost use Rattle.std.specs.Prelude.{◌≡◌};

use kind::SaveType;
use refusal::Refusal;

#[tactic(auto, using(crate::proofs::Answers::fit_of_le), unfolding(out_params::specs::Places::fit_answer))]
pub fn save_fit(image: &[u8], length: usize, kept: &mut u32) -> u32
    ensures { (result, kept.new)
        ≡ answered_at (fit_answer image.now length) kept.old }
{
    *kept = file_sizes::save_fit_of(image, length).unwrap_or(0) as u32;
    0
}

#[tactic(auto, using(crate::proofs::Answers::size_of_le), unfolding(out_params::specs::Places::size_answer))]
pub fn save_size(image: &[u8], size: &mut u32) -> u32
    ensures { (result, size.new) ≡ answered_at (size_answer image.now) size.old }
{
    *size = file_sizes::save_size_of(image) as u32;
    0
}

#[tactic(auto, using(lists::proofs::Bools::tests), unfolding(out_params::specs::Places::memory_size_answer, kind::specs::Kind::kind_of))]
pub fn memory_size(kind: u32, size: &mut u32) -> u32
    ensures { (result, size.new) ≡ answered_at (memory_size_answer kind) size.old }
{
    let Ok(kind) = SaveType::try_from(kind) else {
        return Refusal::Record as u32;
    };
    *size = kind::memory_size(kind) as u32;
    0
}
