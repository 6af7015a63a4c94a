// Bytes without _V are passed over, 32 at a time: they complete no marker.
ghost use Rattle.std.specs.Prelude.{◌≡◌, ◌≤◌, length, drop, get_or};
ghost use Rattle.matcher.specs.Quiet.{pairs, Quiet, after};

use crate::Matcher;

// Whether a _ is followed by a V in 33 bytes. The loop has a fixed length and no exit, so the compiler makes vector
// code of it.
fn pair_in(w: &[u8]) -> bool
    requires { length w.now ≡ 33 }
    ensures { result ≡ pairs (get_or w.now 0 0) (drop 1 w.now) }
{
    let mut hit = false;
    for i in 0..32 {
        hit |= (b'_' == w[i]) & (b'V' == w[i + 1]);
    }
    hit
}

// How many bytes after the byte `before` can be passed over at once: none, or at least 33.
pub fn quiet_run(before: u8, part: &[u8]) -> usize
    ensures { Quiet before part.now result }
{
    if part.len() < 33 {
        return 0;
    }
    if (b'_' == before) & (b'V' == part[0]) {
        return 0;
    }
    let last = part.len() - 33;
    let mut n = 0;
    // Kept: the place reached is the answer, and a `for` by steps of 32 does not have it at its end.
    while n <= last {
        let end = n + 33;
        if pair_in(&part[n..end]) {
            if n == 0 {
                return 0;
            }
            return n + 1;
        }
        n += 32;
    }
    n + 1
}

// The matcher after a part without _V: what was seen stays, and the last bytes are the part's own.
pub fn pass_over(m: Matcher, part: &[u8]) -> Matcher
    requires { 9 ≤ length part.now }
    ensures { result ≡ after m part.now }
{
    let n = part.len() - 9;
    let last = [
        part[n + 8],
        part[n + 7],
        part[n + 6],
        part[n + 5],
        part[n + 4],
        part[n + 3],
        part[n + 2],
        part[n + 1],
        part[n],
    ];
    Matcher { last, ..m }
}
