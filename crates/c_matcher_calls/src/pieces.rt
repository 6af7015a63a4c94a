// The kind of an image that comes in pieces.
// Kept: a call answers the number of a refusal, which C is returned.
ghost use Rattle.std.specs.Prelude.{◌≡◌};
ghost use Rattle.out_params.specs.Places.{answered_at};
ghost use Rattle.c_matcher_calls.specs.Calls.{starts, feeds, finishes};

use crate::bytes::{MatcherBytes, is_matcher, matcher_bytes, matcher_of};
use refusal::Refusal;

#[tactic(auto, unfolding(crate::specs::Calls::starts))]
pub fn start(matcher: &mut MatcherBytes) -> u32
    ensures { (result, matcher.new) ≡ starts }
{
    *matcher = matcher_bytes(matcher::start());
    0
}

#[tactic(auto, using(lists::proofs::Bools::tests), unfolding(crate::specs::Calls::feeds))]
pub fn feed(matcher: &mut MatcherBytes, piece: &[u8], done: &mut u32) -> u32
    ensures { (result, matcher.new, done.new)
        ≡ feeds matcher.old piece.now done.old }
{
    if !is_matcher(matcher) {
        return Refusal::Record as u32;
    }
    let next = matcher::feed(matcher_of(matcher), piece).matcher;
    *matcher = matcher_bytes(next);
    *done = lists::bit(next.sram) as u32;
    0
}

#[tactic(auto, using(lists::proofs::Bools::tests), unfolding(crate::specs::Calls::finishes))]
pub fn finish(matcher: &MatcherBytes, header: &[u8], length: usize, kind: &mut u32) -> u32
    ensures { (result, kind.new)
        ≡ answered_at (finishes matcher.now header.now length) kind.old }
{
    if !image::image_length(length) {
        return Refusal::ImageLength as u32;
    }
    if header.len() < 192 {
        return Refusal::ImageLength as u32;
    }
    if !is_matcher(matcher) {
        return Refusal::Record as u32;
    }
    *kind = kind::kind_number(matcher::finish(matcher_of(matcher), header, length)) as u32;
    0
}
