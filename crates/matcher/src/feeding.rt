// A part handed to the matcher, from the front.
ghost use Rattle.std.specs.Prelude.{false, ◌≡◌, ◌≤◌, ◌<◌, length};
ghost use Rattle.matcher.specs.Reading.{reads, Advanced};

use crate::quiet::{pass_over, quiet_run};
use crate::step::step;
use crate::{Fed, Matcher};

// Byte by byte, until SRAM_V has been seen.
fn over_bytes(m: Matcher, part: &[u8]) -> Fed
    ensures { result ≡ reads m part.now }
{
    let mut now = m;
    for (count, b) in part.iter().enumerate() {
        if now.sram {
            return Fed {
                matcher: now,
                count,
            };
        }
        now = step(now, *b);
    }
    Fed {
        matcher: now,
        count: part.len(),
    }
}

// From the front of a part: bytes without _V at once, or up to 32 bytes one by one. `over_bytes` is called at this one
// place: the compiler then inlines it and keeps the last bytes in registers.
fn advance(m: Matcher, part: &[u8]) -> Fed
    requires { (m.sram ≡ false) × (0 < length part.now) }
    ensures { Advanced m part.now result }
{
    let run = quiet_run(m.last[0], part);
    if run != 0 {
        return Fed {
            matcher: pass_over(m, &part[..run]),
            count: run,
        };
    }
    over_bytes(m, &part[..part.len().min(32)])
}

// The whole part, until SRAM_V has been seen.
pub fn feed(m: Matcher, part: &[u8]) -> Fed
    ensures { result ≡ reads m part.now }
{
    let mut now = m;
    let mut n = 0;
    // Kept: a turn hands over as many bytes as `advance` says, and no iterator steps by that.
    while n < part.len() && !now.sram {
        let some = advance(now, &part[n..]);
        now = some.matcher;
        n += some.count;
    }
    Fed {
        matcher: now,
        count: n,
    }
}
