// CRC-32/IEEE of the image, by its table.

#![tactic(auto)]

mod blocks;
mod lanes;
mod operator;
mod pieces;
mod table;
mod words;

ghost use Rattle.std.specs.Prelude.{◌≡◌};
ghost use Rattle.image.specs.Image.{answer_of};
ghost use Rattle.crc.specs.Crc.{crc32, rom_crc};

pub use pieces::{crc_feed, crc_finish, crc_start};
use refusal::Refusal;

pub fn crc32(s: &[u8]) -> u32
    ensures { result ≡ crc32 s.now }
{
    crc_finish(crc_feed(crc_start(), s))
}

pub fn rom_crc(image: &[u8]) -> Result<u32, Refusal>
    ensures { answer_of result ≡ rom_crc image.now }
{
    image::ask_length(image.len())?;
    Ok(crc32(image))
}
