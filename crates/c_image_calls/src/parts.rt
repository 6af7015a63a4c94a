// What a part shows in ID mode.
// Kept: a call answers the number of a refusal, which C is returned.
ghost use Rattle.std.specs.Prelude.{◌≡◌};
ghost use Rattle.out_params.specs.Places.{answered_at, id_word_answer};

use kind::SaveType;
use refusal::Refusal;

#[tactic(auto, using(lists::proofs::Bools::tests), unfolding(kind::specs::Kind::kind_of, out_params::specs::Places::id_word_answer))]
pub fn id_word(part: u32, kind: u32, word: &mut u32) -> u32
    ensures { (result, word.new) ≡ answered_at (id_word_answer part kind) word.old }
{
    let Ok(save_type) = SaveType::try_from(kind) else {
        return Refusal::Record as u32;
    };
    if !part::number_fits(part, save_type) {
        return Refusal::Part as u32;
    }
    *word = u32::from(part::id_word(part::part_of(part), save_type));
    0
}
