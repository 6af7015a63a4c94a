// The single reading for C: the whole search with its number, and a matcher of 13 bytes for an image in pieces.
// Kept: a call answers the number of a refusal, which C is returned.

#![tactic(auto)]

mod bytes;
mod pieces;

ghost use Rattle.std.specs.Prelude.{◌≡◌};
ghost use Rattle.c_matcher_calls.specs.Calls.{searches};

pub use bytes::MatcherBytes;
pub use pieces::{feed, finish, start};
use refusal::Refusal;

#[tactic(auto, using(lists::proofs::Bools::tests, crate::proofs::Answers::small), unfolding(crate::specs::Calls::searches))]
pub fn search(image: &[u8], kind: &mut u32, handed: &mut u32) -> u32
    ensures { (result, kind.new, handed.new)
        ≡ searches image.now kind.old handed.old }
{
    if !image::image_length(image.len()) {
        return Refusal::ImageLength as u32;
    }
    let found = matcher::search(image);
    *kind = kind::kind_number(found.kind) as u32;
    *handed = found.count as u32;
    0
}
