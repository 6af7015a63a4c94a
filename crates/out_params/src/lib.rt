// Out-parameters.

#![tactic(auto)]

ghost use Rattle.std.specs.Prelude.{◌≡◌};
ghost use Rattle.refusal.specs.Refusals.{number_of};
ghost use Rattle.image.specs.Image.{answer_of};
ghost use Rattle.out_params.specs.Places.{answered_at};

use refusal::Refusal;

// The number that C is returned: of the refusal, or 0.
pub fn status(answer: Result<(), Refusal>) -> u32
    ensures { result ≡ number_of answer }
{
    match answer {
        Ok(()) => 0,
        Err(refusal) => u32::from(refusal.number()),
    }
}

// Writes an answer to an out-parameter; a refused call leaves it. Returns the number of the refusal or 0.
pub fn tell(answer: Result<u32, Refusal>, place: &mut u32) -> u32
    ensures { (result, place.new) ≡ answered_at (answer_of answer) place.old }
{
    match answer {
        Ok(value) => {
            *place = value;
            0
        }
        Err(refusal) => u32::from(refusal.number()),
    }
}
