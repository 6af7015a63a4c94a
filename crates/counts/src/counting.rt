// Counts of bytes. A short part's counter is a byte, so that the compiler counts sixteen bytes at a time.
ghost use Rattle.std.specs.Prelude.{◌≡◌, ◌≤◌, length};
ghost use Rattle.counts.specs.Counts.{differs, differing, used};

// 1 where two bytes differ.
fn differs(a: u8, b: u8) -> u8
    ensures { result ≡ differs a b }
{
    u8::from(a != b)
}

pub fn byte_differs(a: u8, b: u8) -> u32
    ensures { result ≡ differs a b }
{
    u32::from(differs(a, b))
}

// The places at which two short parts differ.
pub fn differing_short(s: &[u8], t: &[u8]) -> u8
    requires { (length s.now ≤ 255) × (length s.now ≡ length t.now) }
    ensures { result ≡ differing s.now t.now }
{
    s.iter().zip(t).map(|(a, b)| differs(*a, *b)).sum()
}

// The bytes other than FFh of a short part.
// Kept: the twin of `differing_short`; what both had in common is now the library's `sum`.
pub fn used_short(s: &[u8]) -> u8
    requires { length s.now ≤ 255 }
    ensures { result ≡ used s.now }
{
    s.iter().map(|b| differs(*b, 0xFF)).sum()
}

// The same of a part of at most a stretch.
pub fn used(s: &[u8]) -> u32
    requires { length s.now ≤ 4096 }
    ensures { result ≡ used s.now }
{
    let (parts, rest) = s.as_chunks::<128>();
    parts
        .iter()
        .map(|part| u32::from(used_short(part)))
        .sum::<u32>()
        + u32::from(used_short(rest))
}
