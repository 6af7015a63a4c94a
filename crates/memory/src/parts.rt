// A part of one stretch replaced by new bytes, counted before it is stored.
ghost use Rattle.std.specs.Prelude.{◌≡◌, ◌+◌, ◌^◌, ◌<◌, ◌≤◌, length};
ghost use Rattle.counts.specs.Counts.{used};
ghost use Rattle.memory.specs.Memory.{erased, filled};
ghost use Rattle.memory.specs.Replaced.{noted, plus, Replaced};

use crate::files::copy_file;
use std::ops::Add;

// How many places changed, and the bytes in use before and after. (Of bytes that stay they are both 0.)
#[derive(Clone, Copy, Default)]
pub struct Change {
    pub changed: u32,
    pub before: u32,
    pub after: u32,
}

// The change of two parts.
impl Add for Change {
    type Output = Change;

    ghost can_add = { λ c d. (c.changed + d.changed < 2 ^ 32)
        × (c.before + d.before < 2 ^ 32)
        × (c.after + d.after < 2 ^ 32) };

    ghost add_gives = { λ c d r. r ≡ plus c d };

    fn add(self, other: Change) -> Change {
        Change {
            changed: self.changed + other.changed,
            before: self.before + other.before,
            after: self.after + other.after,
        }
    }
}

// How many places changed, and the tally of their stretch.
#[derive(Clone, Copy)]
pub struct Noted {
    pub changed: u32,
    pub tally: u16,
}

// Bytes that stay are neither counted nor stored again.
pub fn replace_short(part: &mut [u8], bytes: &[u8]) -> Change
    requires { (length part.old ≤ 255) × (length part.old ≡ length bytes.now) }
    ensures part_after { part.new ≡ bytes.now }
    ensures replaced { Replaced part.old bytes.now result }
{
    let changed = counts::differing_short(part, bytes);
    if changed == 0 {
        return Change::default();
    }
    let before = counts::used_short(part);
    let after = counts::used_short(bytes);
    copy_file(part, bytes);
    Change {
        changed: u32::from(changed),
        before: u32::from(before),
        after: u32::from(after),
    }
}

// Short parts, each counted and stored while the processor holds it.
pub fn replace(part: &mut [u8], bytes: &[u8]) -> Change
    requires { (length part.old ≤ 4096) × (length part.old ≡ length bytes.now) }
    ensures part_after { part.new ≡ bytes.now }
    ensures replaced { Replaced part.old bytes.now result }
{
    let whole = part.len() / 128;
    let mut total = Change::default();
    for k in 0..whole {
        let start = 128 * k;
        let end = start + 128;
        total = total + replace_short(&mut part[start..end], &bytes[start..end]);
    }
    let start = 128 * whole;
    total + replace_short(&mut part[start..], &bytes[start..])
}

// FFh everywhere. Answers how many places changed: those that were in use.
#[tactic(auto, unfolding(crate::specs::Memory::erased))]
pub fn erase(part: &mut [u8]) -> u32
    requires { length part.old ≤ 4096 }
    ensures value { result ≡ used part.old }
    ensures part_after { part.new ≡ erased (length part.old) }
{
    let n = counts::used(part);
    lists::fill(part, 0xFF);
    n
}

// New bytes at the front of a part of one stretch, and FFh after them.
pub fn fill_part(part: &mut [u8], bytes: &[u8], tally: u16) -> Noted
    requires { (length part.old ≤ 4096) × (length bytes.now ≤ length part.old) }
    ensures { (result.changed, part.new, result.tally)
        ≡ noted part.old (filled (length part.old) bytes.now) tally }
{
    let n = bytes.len();
    let front = replace(&mut part[..n], bytes);
    let rest = erase(&mut part[n..]);
    Noted {
        changed: front.changed + rest,
        tally: counts::retally(tally, front.before + rest, front.after),
    }
}
