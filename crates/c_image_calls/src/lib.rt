// What is asked of an image alone, or of a kind's and a part's number. Values go to out-parameters.
// Kept: a call answers the number of a refusal, which C is returned.

#![tactic(auto)]

mod parts;
mod pieces;
mod sizes;

ghost use Rattle.std.specs.Prelude.{◌≡◌};
ghost use Rattle.out_params.specs.Places.{answered_at, kind_answer, title_at};
ghost use Rattle.image.specs.Image.{read, header_checksum};
ghost use Rattle.title.specs.Title.{header_title};
ghost use Rattle.crc.specs.Crc.{rom_crc};

pub use parts::id_word;
pub use pieces::{crc_feed, crc_finish, crc_start};
use refusal::Refusal;
pub use sizes::{memory_size, save_fit, save_size};

pub fn read(image: &[u8], address: u32, value: &mut u32) -> u32
    ensures { (result, value.new)
        ≡ answered_at (read 1 image.now address) value.old }
{
    out_params::tell(image::read(image, address), value)
}

pub fn read16(image: &[u8], address: u32, value: &mut u32) -> u32
    ensures { (result, value.new)
        ≡ answered_at (read 2 image.now address) value.old }
{
    out_params::tell(image::read16(image, address), value)
}

pub fn read32(image: &[u8], address: u32, value: &mut u32) -> u32
    ensures { (result, value.new)
        ≡ answered_at (read 4 image.now address) value.old }
{
    out_params::tell(image::read32(image, address), value)
}

pub fn header_checksum(image: &[u8], value: &mut u32) -> u32
    ensures { (result, value.new)
        ≡ answered_at (header_checksum image.now) value.old }
{
    out_params::tell(image::header_checksum(image), value)
}

pub fn title(image: &[u8], destination: &mut [u8], length: &mut u32) -> u32
    ensures { (result, destination.new, length.new)
        ≡ title_at (header_title image.now destination.old) length.old }
{
    out_params::tell(title::header_title(image, destination), length)
}

pub fn rom_crc(image: &[u8], value: &mut u32) -> u32
    ensures { (result, value.new) ≡ answered_at (rom_crc image.now) value.old }
{
    out_params::tell(crc::rom_crc(image), value)
}

pub fn detect_save_type(image: &[u8], kind: &mut u32) -> u32
    ensures { (result, kind.new) ≡ answered_at (kind_answer image.now) kind.old }
{
    if !image::image_length(image.len()) {
        return Refusal::ImageLength as u32;
    }
    *kind = kind::kind_number(matcher::detect_save_type(image)) as u32;
    0
}
