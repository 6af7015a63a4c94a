// Bytes, texts, digits and questions: definitions that every other crate's contracts are made of, the functions
// that fill, copy, look for FFh and compare, and numbers from their bytes.

#![tactic(auto)]

ghost use Rattle.std.specs.Prelude.{◌≡◌, ◌+◌, ◌*◌, ◌≤◌, length, replicate};
ghost use Rattle.lists.specs.Lists.{bit, into, begins, all_ff};

// Every byte becomes v.
pub fn fill(s: &mut [u8], v: u8)
    ensures { s.new ≡ replicate (length s.old) v }
{
    s.fill(v);
}

// The output goes to the front, and the bytes past it stay.
#[tactic(auto, unfolding(crate::specs::Lists::into))]
pub fn copy(s: &mut [u8], output: &[u8])
    requires { length output.now ≤ length s.old }
    ensures { s.new ≡ into output.now s.old }
{
    s[..output.len()].copy_from_slice(output);
}

// Whether all bytes are FFh. The first other one ends the search.
pub fn all_ff(s: &[u8]) -> bool
    ensures { result ≡ all_ff s.now }
{
    s.iter().all(|b| *b == 0xFF)
}

// Whether s begins with p. The first byte is tested before the others, since a search mostly ends at it.
pub fn begins(s: &[u8], p: &[u8]) -> bool
    ensures { result ≡ begins p.now s.now }
{
    if p.is_empty() {
        return true;
    }
    if s.is_empty() {
        return false;
    }
    if s[0] != p[0] {
        return false;
    }
    s[1..].starts_with(&p[1..])
}

// A Boolean as a number.
pub fn bit(b: bool) -> u8
    ensures { result ≡ bit b }
{
    u8::from(b)
}

// The number of two, four and eight bytes, low byte first.
// Kept: one for each size, as the library's `from_le_bytes` is; no type parameter can say the sum.
pub fn low16(b0: u8, b1: u8) -> u16
    ensures { result ≡ b0 + 256 * b1 }
{
    u16::from_le_bytes([b0, b1])
}

pub fn low32(b0: u8, b1: u8, b2: u8, b3: u8) -> u32
    ensures { result ≡ b0 + 256 * (b1 + 256 * (b2 + 256 * b3)) }
{
    u32::from_le_bytes([b0, b1, b2, b3])
}

pub fn low64(low: u32, high: u32) -> u64
    ensures { result ≡ low + 4294967296 * high }
{
    u64::from(low) + (u64::from(high) << 32)
}
