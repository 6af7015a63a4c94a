// Hexadecimal digits in upper case.

#![tactic(auto)]

ghost use Rattle.std.specs.Prelude.{◌≡◌, ◌<◌, MatchOption};
ghost use Rattle.hex_text.specs.Hex.{character, value_of};

pub fn character(digit: u8) -> u8
    requires { digit < 16 }
    ensures { result ≡ character digit }
{
    if digit < 10 {
        0x30 + digit
    } else {
        0x37 + digit
    }
}

// The value of a digit, if the character is one.
#[tactic(auto, using(lists::proofs::Bools::tests), unfolding(crate::specs::Hex::value_of))]
pub fn digit(c: u8) -> Option<u8>
    ensures { MatchOption result (value_of c ≡ 16) (λ v. (v ≡ value_of c) × (v < 16)) }
{
    match c {
        0x30..=0x39 => Some(c - 0x30),
        0x41..=0x46 => Some(c - 0x37),
        _ => None,
    }
}

// The value of a digit, and 16 for every other character.
// Kept: a public promise; the definition of a line's number is stated by it too.
pub fn value_of(c: u8) -> u8
    ensures { result ≡ value_of c }
{
    digit(c).unwrap_or(16)
}
