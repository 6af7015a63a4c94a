// A marker at every place of 192 zeros: over every boundary of the 32 bytes that the single reading passes at a time.
ghost use Rattle.std.specs.Prelude.{◌≤◌, length};

use crate::put;
use kind::SaveType;
use std::io;

fn both_find(place: usize, marker: &[u8], kind: SaveType) -> bool {
    let mut image = [0u8; 192];
    put(&mut image, place, marker);
    kind::detect_save_type(&image) == kind && matcher::search(&image).kind == kind
}

fn every_place(rt: &impl Print, marker: &[u8], kind: SaveType) -> io::Result<()>
    requires { length marker.now ≤ 192 }
{
    let places = 193 - marker.len();
    let hits = (0..places)
        .filter(|place| both_find(*place, marker, kind))
        .count();
    rt.write_all(marker)?;
    println!(rt; " at every place of 192 bytes: both searches say {kind:?} at {hits} of {places}")
}

// The reading ends just behind the marker.
fn sram_counts(rt: &impl Print) -> io::Result<()> {
    print!(rt; "SRAM_V at every place of 192 bytes: single reading after")?;
    for place in 0..187 {
        let mut image = [0u8; 192];
        put(&mut image, place, b"SRAM_V");
        let count = matcher::search(&image).count;
        print!(rt; " {count}")?;
    }
    println!(rt)
}

pub fn places(rt: &impl Print) -> io::Result<()> {
    every_place(rt, b"SRAM_V", SaveType::Sram)?;
    sram_counts(rt)?;
    every_place(rt, b"FLASH_V", SaveType::Flash64)?;
    every_place(rt, b"FLASH512_V", SaveType::Flash64)?;
    every_place(rt, b"FLASH1M_V", SaveType::Flash128)?;
    every_place(rt, b"EEPROM_V", SaveType::Eeprom512)
}
