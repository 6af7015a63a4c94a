// The CRC of bytes that come in pieces: the number that is passed from call to call is the register.
ghost use Rattle.std.specs.Prelude.{◌≡◌};
ghost use Rattle.crc.specs.Pieces.{crc_start, crc_feed, crc_finish};

use crate::blocks::over_bytes;
use crate::operator::{AFTER_LANE, Operator};
use crate::table::{TABLE, Table};

pub fn crc_start() -> u32
    ensures { result ≡ crc_start }
{
    0xFFFF_FFFF
}

pub fn crc_feed(c: u32, part: &[u8]) -> u32
    ensures { result ≡ crc_feed c part.now }
{
    let table = Table { numbers: &TABLE };
    let op = Operator {
        numbers: &AFTER_LANE,
    };
    over_bytes(table, op, c, part)
}

pub fn crc_finish(c: u32) -> u32
    ensures { result ≡ crc_finish c }
{
    !c
}
