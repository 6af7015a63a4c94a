// Bytes of the image, little end first, 0 past its end.
ghost use Rattle.std.specs.Prelude.{◌≡◌, slice_index};
ghost use Rattle.image.specs.Image.{read, answer_of};

use crate::ask_length;
use refusal::Refusal;

fn byte_at(image: &[u8], place: usize) -> u8
    ensures { result ≡ slice_index image.now place }
{
    if place < image.len() { image[place] } else { 0 }
}

pub fn read(image: &[u8], address: u32) -> Result<u32, Refusal>
    ensures { answer_of result ≡ read 1 image.now address }
{
    ask_length(image.len())?;
    let at = address as usize;
    Ok(byte_at(image, at) as u32)
}

pub fn read16(image: &[u8], address: u32) -> Result<u32, Refusal>
    ensures { answer_of result ≡ read 2 image.now address }
{
    ask_length(image.len())?;
    let at = address as usize;
    Ok(lists::low16(byte_at(image, at), byte_at(image, at + 1)) as u32)
}

pub fn read32(image: &[u8], address: u32) -> Result<u32, Refusal>
    ensures { answer_of result ≡ read 4 image.now address }
{
    ask_length(image.len())?;
    let at = address as usize;
    Ok(lists::low32(
        byte_at(image, at),
        byte_at(image, at + 1),
        byte_at(image, at + 2),
        byte_at(image, at + 3),
    ))
}
