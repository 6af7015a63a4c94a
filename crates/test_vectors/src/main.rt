// Vectors of the image's side, each with its answer: what a reader holds against a book or another program.

#![tactic(auto)]

mod crcs;
mod orders;
mod pieces;
mod places;
mod searches;

ghost use Rattle.std.specs.Prelude.{◌≤◌};

use kind::SaveType;
use std::io;

pub const MARKERS: [&[u8]; 5] = [
    b"SRAM_V",
    b"FLASH_V",
    b"FLASH512_V",
    b"FLASH1M_V",
    b"EEPROM_V",
];

// The Unicode Standard's tables 3-8 to 3-11, sequences that the title's end cuts off, zeros inside and at the end.
const TITLES: [&[u8; 12]; 12] = [
    b"\xC0\xAF\xE0\x80\xBF\xF0\x81\x82\x41\0\0\0",
    b"\xED\xA0\x80\xED\xBF\xBF\xED\xAF\x41\0\0\0",
    b"\xF4\x91\x92\x93\xFF\x41\x80\xBF\x42\0\0\0",
    b"\xE1\x80\xE2\xF0\x91\x92\xF1\xBF\x41\0\0\0",
    b"\xC3\xA9\xE2\x82\xAC\xF0\x9F\x8E\xAE\0\0\0",
    b"\xF0\x8F\xBF\xBF\xF5\x80\x80\x80\xF4\x8F\xBF\xBF",
    b"0123456789A\xC2",
    b"0123456789\xE1\x80",
    b"012345678\xF1\x80\x80",
    b"\xFF\xFF\xFF\xFF\xFF\xFF\xFF\xFF\xFF\xFF\xFF\xFF",
    b"AB\0C\0\0\0\0\0\0\0\0",
    b"\0\0\0\0\0\0\0\0\0\0\0\0",
];

fn print_bytes(rt: &impl Print, s: &[u8]) -> io::Result<()> {
    for byte in s {
        print!(rt; "{byte:02X}")?;
    }
    Ok(())
}

// Writes a text at a place; what would go past the end is left out.
pub fn put(image: &mut [u8], place: usize, text: &[u8]) {
    for (to, from) in image.iter_mut().skip(place).zip(text) {
        *to = *from;
    }
}

// Twelve title bytes, the title's length, and a destination that was 36 bytes 2Eh.
fn title(rt: &impl Print, bytes: &[u8; 12]) -> io::Result<()> {
    let mut image = [0u8; 192];
    put(&mut image, 0xA0, bytes);
    let mut destination = [0x2Eu8; 36];
    let len = title::header_title(&image, &mut destination).unwrap_or(0);
    print!(rt; "title ")?;
    print_bytes(rt, bytes)?;
    print!(rt; ": {len} ")?;
    print_bytes(rt, &destination)?;
    println!(rt)
}

fn fit(rt: &impl Print, kind: SaveType, file: usize) -> io::Result<()> {
    match file_sizes::save_fit(kind, file) {
        Some(kept) => print!(rt; " {file}>{kept}"),
        None => print!(rt; " {file}-"),
    }
}

// The lengths around a size and around it with a footer.
fn fits(rt: &impl Print, kind: SaveType, size: usize) -> io::Result<()>
    requires { (1 ≤ size) × (size ≤ 131072) }
{
    for file in [size - 1, size, size + 1, size + 15, size + 16, size + 17] {
        fit(rt, kind, file)?;
    }
    Ok(())
}

fn sizes(rt: &impl Print, kind: SaveType) -> io::Result<()> {
    let size = file_sizes::save_size(kind);
    print!(rt; "fit {kind:?}, size {size}:")?;
    fit(rt, kind, 0)?;
    for size in [512, 8192, 32768, 65536, 131072] {
        fits(rt, kind, size)?;
    }
    println!(rt)
}

fn main(rt: HostRuntime) -> io::Result<()> {
    crcs::crcs(&rt)?;
    for bytes in TITLES {
        title(&rt, bytes)?;
    }
    searches::searches(&rt)?;
    orders::orders(&rt)?;
    places::places(&rt)?;
    pieces::pieces(&rt)?;
    for kind in [
        SaveType::None,
        SaveType::Sram,
        SaveType::Flash64,
        SaveType::Flash128,
        SaveType::Eeprom512,
        SaveType::Eeprom8k,
    ] {
        sizes(&rt, kind)?;
    }
    Ok(())
}
