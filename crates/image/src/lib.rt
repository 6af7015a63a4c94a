// What is asked of the image alone: its bytes and its header check. Nothing is required of an image; what it is too
// short or too long for is refused with a number.

#![tactic(auto)]

mod header;
mod reads;

ghost use Rattle.std.specs.Prelude.{◌≡◌, [], ◌∷◌};
ghost use Rattle.lists.specs.Questions.{◌else◌, asked};
ghost use Rattle.refusal.specs.Refusals.{number_of};
ghost use Rattle.image.specs.Image.{image_length};

pub use header::header_checksum;
pub use reads::{read, read16, read32};
use refusal::Refusal;

// Question 1, of a length.
#[tactic(auto, using(lists::proofs::Bools::tests), unfolding(crate::specs::Image::image_length))]
pub fn image_length(n: usize) -> bool
    ensures { result ≡ image_length n }
{
    192 <= n && n <= 33554432
}

pub fn ask_length(n: usize) -> Result<(), Refusal>
    ensures { number_of result ≡ asked (image_length n else 1 ∷ []) }
{
    if image_length(n) {
        Ok(())
    } else {
        Err(Refusal::ImageLength)
    }
}
