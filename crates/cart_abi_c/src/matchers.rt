// The single reading: the whole search with its number, and a matcher for an image in pieces.
ghost use Rattle.std.specs.Prelude.{◌≡◌};
ghost use Rattle.out_params.specs.Places.{answered_at};
ghost use Rattle.c_matcher_calls.specs.Calls.{searches, starts, feeds, finishes};

use c_matcher_calls::MatcherBytes;

#[unsafe(no_mangle)]
pub extern "C" fn gbasave_search(image: &[u8], kind: &mut u32, handed: &mut u32) -> u32
    ensures { (result, kind.new, handed.new)
        ≡ searches image.now kind.old handed.old }
{
    cart_abi::gbasave_search(image, kind, handed)
}

#[unsafe(no_mangle)]
pub extern "C" fn gbasave_matcher_start(matcher: &mut MatcherBytes) -> u32
    ensures { (result, matcher.new) ≡ starts }
{
    cart_abi::gbasave_matcher_start(matcher)
}

#[unsafe(no_mangle)]
pub extern "C" fn gbasave_matcher_feed(
    matcher: &mut MatcherBytes,
    piece: &[u8],
    done: &mut u32,
) -> u32
    ensures { (result, matcher.new, done.new)
        ≡ feeds matcher.old piece.now done.old }
{
    cart_abi::gbasave_matcher_feed(matcher, piece, done)
}

#[unsafe(no_mangle)]
pub extern "C" fn gbasave_matcher_finish(
    matcher: &MatcherBytes,
    header: &[u8],
    length: usize,
    kind: &mut u32,
) -> u32
    ensures { (result, kind.new)
        ≡ answered_at (finishes matcher.now header.now length) kind.old }
{
    cart_abi::gbasave_matcher_finish(matcher, header, length, kind)
}
