// The matcher's step over one byte.
ghost use Rattle.std.specs.Prelude.{◌≡◌, ◌∷◌, reverse};
ghost use Rattle.kind.specs.Kind.{begins};
ghost use Rattle.matcher.specs.Matcher.{start, step};

use crate::Matcher;

#[tactic(auto, unfolding(crate::specs::Matcher::start))]
pub fn start() -> Matcher
    ensures { result ≡ start }
{
    Matcher {
        sram: false,
        flash64: false,
        flash128: false,
        eeprom: false,
        last: [0u8; 9],
    }
}

// Whether a marker ends with the byte b, which follows the bytes l, newest first.
fn ends(marker: &[u8], b: u8, l: [u8; 9]) -> bool
    ensures { result ≡ begins (reverse marker.now) (b ∷ l) }
{
    let text = [l[8], l[7], l[6], l[5], l[4], l[3], l[2], l[1], l[0], b];
    text.ends_with(marker)
}

// One byte more. Every marker ends in _V.
pub fn step(m: Matcher, b: u8) -> Matcher
    ensures { result ≡ step m b }
{
    let l = m.last;
    let next = Matcher {
        last: [b, l[0], l[1], l[2], l[3], l[4], l[5], l[6], l[7]],
        ..m
    };
    if b != b'V' || l[0] != b'_' {
        return next;
    }
    Matcher {
        sram: m.sram | ends(b"SRAM_V", b, l),
        flash64: m.flash64 | ends(b"FLASH_V", b, l) | ends(b"FLASH512_V", b, l),
        flash128: m.flash128 | ends(b"FLASH1M_V", b, l),
        eeprom: m.eeprom | ends(b"EEPROM_V", b, l),
        ..next
    }
}
