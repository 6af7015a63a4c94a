// The register over any number of bytes: whole blocks in lanes, the rest byte by byte.
ghost use Rattle.std.specs.Prelude.{◌≡◌, length};
ghost use Rattle.lists.specs.Lists.{fold};
ghost use Rattle.crc.specs.Crc.{crc_byte};

use crate::lanes::lane_ends;
use crate::operator::Operator;
use crate::table::Table;

// The lanes of a block, joined one after the other.
fn over_block(table: Table, op: Operator, start: u32, s: &[u8]) -> u32
    requires s_len { length s.now ≡ 32768 }
    ensures { result ≡ fold crc_byte start s.now }
{
    let ends = lane_ends(table, start, s);
    let mut c = ends[0];
    for end in &ends[1..] {
        c = op.join(c, *end);
    }
    c
}

pub fn over_bytes(table: Table, op: Operator, start: u32, s: &[u8]) -> u32
    ensures { result ≡ fold crc_byte start s.now }
{
    let blocks = s.chunks_exact(32768);
    let rest = blocks.remainder();
    let mut c = start;
    for block in blocks {
        c = over_block(table, op, c, block);
    }
    for byte in rest {
        c = table.byte_out(c ^ u32::from(*byte));
    }
    c
}
