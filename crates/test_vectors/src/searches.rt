// Vectors of the search for the kind. Each line has the answers of document 01's search and of the single reading, and
// after how many bytes that one had its answer.
ghost use Rattle.std.specs.Prelude.{◌≤◌, length};

use crate::{MARKERS, put};
use std::io;

// A line's end: both answers.
pub fn print_searches(rt: &impl Print, image: &[u8]) -> io::Result<()> {
    let kind = kind::detect_save_type(image);
    let found = matcher::search(image);
    println!(rt;
        ": {kind:?}, single reading {:?} after {}",
        found.kind, found.count
    )
}

// An image of 256 zeros with a text at a place.
fn image_with(rt: &impl Print, place: usize, text: &[u8]) -> io::Result<()> {
    let mut image = [0u8; 256];
    put(&mut image, place, text);
    print!(rt; "kind ")?;
    rt.write_all(text)?;
    print!(rt; " at {place}")?;
    print_searches(rt, &image)
}

// A marker at both ends of the image; then cut short by the image's end, and without its first byte at the start.
fn at_both_ends(rt: &impl Print, marker: &[u8]) -> io::Result<()>
    requires { (1 ≤ length marker.now) × (length marker.now ≤ 256) }
{
    let n = marker.len();
    let short = n - 1;
    image_with(rt, 0, marker)?;
    image_with(rt, 256 - n, marker)?;
    image_with(rt, 256 - short, &marker[..short])?;
    image_with(rt, 0, &marker[1..])
}

fn ends(rt: &impl Print) -> io::Result<()> {
    for marker in MARKERS {
        at_both_ends(rt, marker)?;
    }
    Ok(())
}

// Several markers, game codes, titles, and what is one byte off.
const ALONE: [(usize, &[u8]); 16] = [
    (1, b"RAM_V"),
    (0, b"EEPROM_VFLASH1M_VFLASH_VSRAM_V"),
    (0, b"EEPROM_VFLASH1M_VFLASH512_V"),
    (0, b"EEPROM_VFLASH1M_V"),
    (0xAC, b"GBXPEEPROM_V"),
    (0xAC, b"GBXJ"),
    (0xAC, b"GBXE"),
    (0xAC, b"GBXK"),
    (0xAB, b"GBXE"),
    (0xAC, b"GB4PSRAM_V"),
    (0xAC, b"GB4J"),
    (0xAC, b"GB4E"),
    (0xA0, b"POKEMON RUBY"),
    (0xA0, b"POKEMON RUBYEEPROM_V"),
    (0xA0, b"POKEMON RUB"),
    (0x9F, b"POKEMON RUBY"),
];

fn markers(rt: &impl Print) -> io::Result<()> {
    for (place, text) in ALONE {
        image_with(rt, place, text)?;
    }
    Ok(())
}

// A marker that begins inside the beginning of one, and texts that are almost a marker.
const OVERLAPS: [&[u8]; 11] = [
    b"SRASRAM_V",
    b"SRAM_SRAM_V",
    b"_VSRAM_V",
    b"FLASRAM_V",
    b"FLASHSRAM_V",
    b"FLASH1FLASH_V",
    b"FLASH512FLASH512_V",
    b"FLASH1MFLASH1M_V",
    b"EEEPROM_V",
    b"EEPROM_V_V",
    b"SRAM__V",
];

fn overlaps(rt: &impl Print) -> io::Result<()> {
    for text in OVERLAPS {
        for place in [0, 100, 256 - text.len()] {
            image_with(rt, place, text)?;
        }
    }
    Ok(())
}

// A game code, and a marker behind the header.
fn code_with(rt: &impl Print, code: &[u8], marker: &[u8]) -> io::Result<()> {
    let mut image = [0u8; 256];
    put(&mut image, 0xAC, code);
    put(&mut image, 0xC0, marker);
    print!(rt; "code ")?;
    rt.write_all(code)?;
    print!(rt; " and ")?;
    rt.write_all(marker)?;
    print_searches(rt, &image)
}

// Where the game code decides, no byte is handed to the matcher.
fn codes(rt: &impl Print) -> io::Result<()> {
    for code in [b"GBXP", b"GBXJ", b"GBXE", b"GB4P", b"GB4J", b"GB4E"] {
        for marker in MARKERS {
            code_with(rt, code, marker)?;
        }
    }
    Ok(())
}

pub fn searches(rt: &impl Print) -> io::Result<()> {
    ends(rt)?;
    markers(rt)?;
    overlaps(rt)?;
    codes(rt)
}
