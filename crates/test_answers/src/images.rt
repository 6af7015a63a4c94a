// An image on its own.

use crate::Output;
use crate::made::{make_image, put_text};
use cart::{Cartridge, Reply};
use part::Part;

fn opened(image: &[u8], memory: &mut [u8], tallies: &mut [u16]) -> Reply {
    let kind = kind::detect_save_type(image);
    let n = kind::memory_size(kind).min(memory.len());
    let k = kind::tally_count(kind).min(tallies.len());
    state_calls::from_bytes(image, Part::Usual, &mut memory[..n], &mut tallies[..k])
}

// Kind, header check, CRC, `save_size`, `eeprom_window_start`, and the title with its length in front.
fn print_image(image: &[u8], cart: Cartridge, out: &mut Output) -> usize {
    let mut answer = [0; 51];
    let title = title::header_title(image, &mut answer[15..]).unwrap_or(0) % 256;
    let check = image::header_checksum(image).unwrap_or(0);
    let crc = crc::rom_crc(image).unwrap_or(0);
    let size = (file_sizes::save_size_of(image) % 4294967296) as u32;
    let window = state_calls::eeprom_window_start(cart).unwrap_or(0);
    answer[0] = cart.kind as u8;
    answer[1] = (check % 256) as u8;
    answer[2..6].copy_from_slice(&crc.to_be_bytes());
    answer[6..10].copy_from_slice(&size.to_be_bytes());
    answer[10..14].copy_from_slice(&window.to_be_bytes());
    answer[14] = title as u8;
    let end = (15 + title as usize).min(51);
    frames::print_line(out, 0, &answer[..end])
}

// Opens the image and asks it; memory and tallies are not kept.
fn ask(image: &[u8], out: &mut Output) -> usize {
    let mut memory = [0; 131072];
    let mut tallies = [0; 32];
    match opened(image, &mut memory, &mut tallies) {
        Ok(accepted) => print_image(image, accepted.cart, out),
        Err(refusal) => frames::print_line(out, refusal.number(), b""),
    }
}

// 10 image length (8) seed (2) offset (8) text (0 to 66).
pub fn image_answer(
    len: u32,
    seed: u8,
    place: u32,
    text: &[u8],
    out: &mut Output,
) -> Option<usize> {
    let mut room = [0; 4096];
    let image = room.get_mut(..len as usize)?;
    if len < place {
        return None;
    }
    make_image(image, seed);
    put_text(image, place as usize, text);
    Some(ask(image, out))
}
