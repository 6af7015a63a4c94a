// The CRC of an image that comes in parts. These calls ask nothing.
// Kept: a call answers the number of a refusal, which C is returned.
ghost use Rattle.std.specs.Prelude.{◌≡◌};
ghost use Rattle.out_params.specs.Places.{told};
ghost use Rattle.crc.specs.Pieces.{crc_start, crc_feed, crc_finish};

pub fn crc_start(crc: &mut u32) -> u32
    ensures { (result, crc.new) ≡ told 0 crc_start crc.old }
{
    *crc = crc::crc_start();
    0
}

pub fn crc_feed(crc: &mut u32, part: &[u8]) -> u32
    ensures { (result, crc.new)
        ≡ told 0 (crc_feed crc.old part.now) crc.old }
{
    *crc = crc::crc_feed(*crc, part);
    0
}

pub fn crc_finish(crc: &mut u32) -> u32
    ensures { (result, crc.new) ≡ told 0 (crc_finish crc.old) crc.old }
{
    *crc = crc::crc_finish(*crc);
    0
}
