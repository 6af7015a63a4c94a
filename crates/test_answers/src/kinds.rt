// What is asked of a kind.

use crate::Output;
use kind::SaveType;
use refusal::Refusal;

// A kind by its number.
pub fn kind_of(number: u8) -> Option<SaveType> {
    SaveType::try_from(u32::from(number)).ok()
}

fn print_number(x: usize, out: &mut Output) -> usize {
    let x = (x % 4294967296) as u32;
    frames::print_line(out, 0, &x.to_be_bytes())
}

// 0C kind (2) length (8).
pub fn fit(kind: SaveType, len: u32, out: &mut Output) -> usize {
    match file_sizes::save_fit(kind, len as usize) {
        Some(n) => print_number(n, out),
        None => frames::print_line(out, Refusal::FileLength.number(), b""),
    }
}

// 0D kind (2).
pub fn size(kind: SaveType, out: &mut Output) -> usize {
    print_number(file_sizes::save_size(kind), out)
}
