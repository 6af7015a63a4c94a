// What a text begins with: a well-formed UTF-8 sequence by its length, or as an error the length of the maximal subpart
// of an ill-formed one. By the Unicode Standard's table of well-formed UTF-8 byte sequences.
ghost use Rattle.std.specs.Prelude.{◌≡◌, ◌∷◌, ◌-◌, ◌≤◌, drop, replicate};
ghost use Rattle.title.specs.Title.{between, tail, begins, following, front, goes_on, sequence};

// Whether the text has a byte at that place, and the byte is in the range.
fn in_range(s: &[u8], place: usize, lo: u8, hi: u8) -> bool
    ensures { result ≡ begins (drop place s.now) (between lo hi) }
{
    s.get(place).is_some_and(|b| (lo..=hi).contains(b))
}

// A sequence of 1 + n bytes: the second in the range, those after it in 80h to BFh.
fn follow(s: &[u8], n: usize, lo: u8, hi: u8) -> Result<usize, usize>
    requires { (1 ≤ n) × (n ≤ 3) }
    ensures { result ≡ goes_on 1 (between lo hi ∷ replicate (n - 1) tail) (drop 1 s.now) }
{
    if !in_range(s, 1, lo, hi) {
        return Err(1);
    }
    if n == 1 {
        return Ok(2);
    }
    if !in_range(s, 2, 0x80, 0xBF) {
        return Err(2);
    }
    if n == 2 {
        return Ok(3);
    }
    if !in_range(s, 3, 0x80, 0xBF) {
        return Err(3);
    }
    Ok(4)
}

// A sequence with that first byte.
#[tactic(auto, using(lists::proofs::Bools::tests), unfolding(crate::specs::Title::following, crate::specs::Title::front, crate::specs::Title::between, crate::specs::Title::goes_on))]
fn begun(first: u8, s: &[u8]) -> Result<usize, usize>
    ensures { result ≡ front (following first) (drop 1 s.now) }
{
    match first {
        0x00..=0x7F => Ok(1),
        0xC2..=0xDF => follow(s, 1, 0x80, 0xBF),
        0xE0 => follow(s, 2, 0xA0, 0xBF),
        0xE1..=0xEC => follow(s, 2, 0x80, 0xBF),
        0xED => follow(s, 2, 0x80, 0x9F),
        0xEE..=0xEF => follow(s, 2, 0x80, 0xBF),
        0xF0 => follow(s, 3, 0x90, 0xBF),
        0xF1..=0xF3 => follow(s, 3, 0x80, 0xBF),
        0xF4 => follow(s, 3, 0x80, 0x8F),
        _ => Err(1),
    }
}

pub fn sequence(s: &[u8]) -> Result<usize, usize>
    ensures { result ≡ sequence s.now }
{
    if s.is_empty() {
        return Ok(0);
    }
    begun(s[0], s)
}
