// The title, with what is not UTF-8 in it replaced.

#![tactic(auto)]

mod utf8;

ghost use Rattle.std.specs.Prelude.{◌≡◌, ◌*◌, ◌<◌, ◌≤◌};
ghost use Rattle.std.specs.Prelude.{length, take, slice_index, EachIndex, MatchOption};
ghost use Rattle.image.specs.Image.{answer_of};
ghost use Rattle.title.specs.Title.{showing, replaced, trimmed, header_title, IsLastInUse};

use refusal::Refusal;

// How many bytes of a text were taken, and how many are shown for them.
#[derive(Clone, Copy)]
pub struct Shown {
    pub used: usize,
    pub len: usize,
}

// What the text begins with goes to the front of `out`, or EFh BFh BDh in its place.
fn show(out: &mut [u8], s: &[u8]) -> Shown
    requires { (0 < length s.now) × (3 * length s.now ≤ length out.old) }
    ensures { (result, out.new) ≡ showing s.now out.old }
{
    match utf8::sequence(s) {
        Ok(n) => {
            lists::copy(&mut *out, &s[..n]);
            Shown { used: n, len: n }
        }
        Err(n) => {
            lists::copy(&mut *out, b"\xEF\xBF\xBD");
            Shown { used: n, len: 3 }
        }
    }
}

// The text with its ill-formed parts replaced goes to the front of `out`; the answer is its length.
fn replace(out: &mut [u8], s: &[u8]) -> usize
    requires { 3 * length s.now ≤ length out.old }
    ensures { (take result out.new ≡ replaced 0 s.now)
        × (result ≤ length out.new) }
{
    let mut t = s;
    let mut n: usize = 0;
    // Kept: a turn takes as much of the text as its sequence has, and no iterator steps by that.
    while t.len() > 0 {
        let shown = show(&mut out[n..], t);
        n += shown.len;
        t = &t[shown.used..];
    }
    n
}

// The place of the last byte that is not zero.
fn last_in_use(s: &[u8]) -> Option<usize>
    ensures { MatchOption result (EachIndex s.now (λ k. slice_index s.now k ≡ 0)) (IsLastInUse s.now) }
{
    s.iter().rposition(|b| *b != 0)
}

// How long the text is without the zeros at its end.
fn trim(s: &[u8]) -> usize
    ensures { (take result s.now ≡ trimmed s.now) × (result ≤ length s.now) }
{
    match last_in_use(s) {
        Some(last) => last + 1,
        None => 0,
    }
}

pub fn header_title(image: &[u8], destination: &mut [u8]) -> Result<u32, Refusal>
    ensures { (answer_of result, destination.new)
        ≡ header_title image.now destination.old }
{
    if image.len() < 192 {
        return Err(Refusal::ImageLength);
    }
    let mut text = [0u8; 36];
    let n = replace(&mut text, &image[0xA0..0xAC]);
    let len = trim(&text[..n]);
    if destination.len() < len {
        return Err(Refusal::DestinationLength);
    }
    lists::copy(destination, &text[..len]);
    Ok(len as u32)
}
