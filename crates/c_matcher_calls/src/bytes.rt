// A matcher's bytes: the markers seen, then the last bytes.
ghost use Rattle.std.specs.Prelude.{◌≡◌};
ghost use Rattle.c_matcher_calls.specs.MatcherBytes.{matcher_bytes, matcher_of, is_matcher};

use matcher::Matcher;

pub type MatcherBytes = [u8; 13];

// Question 2.
#[tactic(auto, using(crate::proofs::Spelled::asks))]
pub fn is_matcher(b: &MatcherBytes) -> bool
    ensures { result ≡ is_matcher b.now }
{
    (b[0] <= 1) & (b[1] <= 1) & (b[2] <= 1) & (b[3] <= 1)
}

#[tactic(auto, using(crate::proofs::Spelled::taken))]
pub fn matcher_of(b: &MatcherBytes) -> Matcher
    ensures { result ≡ matcher_of b.now }
{
    Matcher {
        sram: b[0] == 1,
        flash64: b[1] == 1,
        flash128: b[2] == 1,
        eeprom: b[3] == 1,
        // Kept: the check does not cover `[.., last @ ..]` of an array taken by value.
        last: [b[4], b[5], b[6], b[7], b[8], b[9], b[10], b[11], b[12]],
    }
}

pub fn matcher_bytes(m: Matcher) -> MatcherBytes
    ensures { result ≡ matcher_bytes m }
{
    let l = m.last;
    [
        lists::bit(m.sram),
        lists::bit(m.flash64),
        lists::bit(m.flash128),
        lists::bit(m.eeprom),
        l[0],
        l[1],
        l[2],
        l[3],
        l[4],
        l[5],
        l[6],
        l[7],
        l[8],
    ]
}
