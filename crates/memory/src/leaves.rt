// The stores, each to its own part of the memory. Each answers how many places it changed, and changes the tallies of
// the stretches that it stores to.
ghost use Rattle.std.specs.Prelude.{◌≡◌, [], ◌+◌, ◌*◌, ◌≤◌, ◌<◌, length};
ghost use Rattle.lists.specs.Lists.{digits};
ghost use Rattle.memory.specs.declared.Store.TheVariants.{Byte, Block, Sector, File};
ghost use Rattle.memory.specs.Memory.{stored, with_count, Tallied, Fits};

use crate::parts::{fill_part, replace_short};

// The eight bytes of a block, highest first.
// Kept: the specification names shifts as the form that takes the data bytes out.
fn word_bytes(word: u64) -> [u8; 8]
    ensures { result ≡ digits 256 8 word }
{
    [
        ((word >> 56) % 256) as u8,
        ((word >> 48) % 256) as u8,
        ((word >> 40) % 256) as u8,
        ((word >> 32) % 256) as u8,
        ((word >> 24) % 256) as u8,
        ((word >> 16) % 256) as u8,
        ((word >> 8) % 256) as u8,
        (word % 256) as u8,
    ]
}

pub fn put_byte(memory: &mut [u8], place: usize, value: u8, tallies: &mut [u16]) -> u32
    requires tallied { Tallied (length memory.old) tallies.old }
    requires place_in_bounds { place < length memory.old }
    ensures { (result, memory.new, tallies.new)
        ≡ with_count memory.old
        (stored (Byte place value) [] memory.old)
        tallies.old }
{
    let old = memory[place];
    let k = place / 4096;
    tallies[k] = counts::retally(
        tallies[k],
        counts::byte_differs(old, 0xFF),
        counts::byte_differs(value, 0xFF),
    );
    memory[place] = value;
    counts::byte_differs(old, value)
}

// A block lies within one stretch.
pub fn put_block(memory: &mut [u8], block: usize, word: u64, tallies: &mut [u16]) -> u32
    requires tallied { Tallied (length memory.old) tallies.old }
    requires block_in_bounds { 8 * block + 8 ≤ length memory.old }
    ensures { (result, memory.new, tallies.new)
        ≡ with_count memory.old
        (stored (Block block word) [] memory.old)
        tallies.old }
{
    let start = 8 * block;
    let end = start + 8;
    let k = block / 512;
    let bytes = word_bytes(word);
    let c = replace_short(&mut memory[start..end], &bytes);
    tallies[k] = counts::retally(tallies[k], c.before, c.after);
    c.changed
}

// A sector is a stretch.
pub fn erase_sector(memory: &mut [u8], place: usize, tallies: &mut [u16]) -> u32
    requires tallied { Tallied (length memory.old) tallies.old }
    requires fits { Fits (Sector place) (length memory.old) }
    ensures { (result, memory.new, tallies.new)
        ≡ with_count memory.old
        (stored (Sector place) [] memory.old)
        tallies.old }
{
    let k = place / 4096;
    let start = k * 4096;
    let end = start + 4096;
    let n = fill_part(&mut memory[start..end], &[], tallies[k]);
    tallies[k] = n.tally;
    n.changed
}

// FFh everywhere, then the file's first bytes: stretch by stretch, each byte written at most once.
pub fn load(memory: &mut [u8], file: &[u8], tallies: &mut [u16]) -> u32
    requires tallied { Tallied (length memory.old) tallies.old }
    requires memory_len_bound { length memory.old ≤ 131072 }
    ensures { (result, memory.new, tallies.new)
        ≡ with_count memory.old
        (stored File file.now memory.old)
        tallies.old }
{
    let mut changed: u32 = 0;
    for (k, tally) in tallies.iter_mut().enumerate() {
        let start = k * 4096;
        let end = start + 4096;
        let from = start.min(file.len());
        let to = end.min(file.len());
        let n = fill_part(&mut memory[start..end], &file[from..to], *tally);
        *tally = n.tally;
        changed += n.changed;
    }
    changed
}
