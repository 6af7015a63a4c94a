// Line 1: the kind, the image that has it, and what the list begins with.
ghost use Rattle.std.specs.Prelude.{◌≡◌, ◌≤◌, length};
ghost use Rattle.lists.specs.Lists.{into};
ghost use Rattle.frames.specs.Frames.{first_line};
ghost use Rattle.cuttrace_lib.specs.Printing.{Shows};
ghost use Rattle.cuttrace_lib.specs.Setup.{image_of, prelude, prelude_room};

use kind::SaveType;

pub fn first_kind(line: &[u8]) -> Option<SaveType>
    ensures { result ≡ first_line line.now }
{
    let mut l = frames::empty_line();
    for c in line {
        l = frames::push(l, *c);
    }
    frames::first_in(l)
}

// An image of that kind, its marker in front. An image of Eeprom8k would be longer than 16 MiB, so that kind is played
// as an Eeprom512 that a load has made large.
pub fn put_image(kind: SaveType, image: &mut [u8])
    requires { length image.old ≡ 192 }
    ensures { image.new ≡ image_of kind }
{
    lists::fill(image, 0);
    match kind {
        SaveType::None => {}
        SaveType::Sram => lists::copy(image, b"SRAM_V"),
        SaveType::Flash64 => lists::copy(image, b"FLASH_V"),
        SaveType::Flash128 => lists::copy(image, b"FLASH1M_V"),
        SaveType::Eeprom512 => lists::copy(image, b"EEPROM_V"),
        SaveType::Eeprom8k => lists::copy(image, b"EEPROM_V"),
    }
}

fn put_load(list: &mut [u8])
    requires { 8197 ≤ length list.old }
    ensures { list.new ≡ into (prelude SaveType.Eeprom8k) list.old }
{
    lists::fill(&mut list[5..8197], 0xFF);
    lists::copy(list, &[8, 0, 0, 0x20, 0]);
}

// Starts the list, before any line: for Eeprom8k with a load of 8,192 erased bytes. Returns its length.
pub fn put_prelude(kind: SaveType, list: &mut [u8]) -> usize
    requires { 8197 ≤ length list.old }
    ensures { Shows (prelude kind) result list.new list.old }
{
    match kind {
        SaveType::None => 0,
        SaveType::Sram => 0,
        SaveType::Flash64 => 0,
        SaveType::Flash128 => 0,
        SaveType::Eeprom512 => 0,
        SaveType::Eeprom8k => {
            put_load(list);
            8197
        }
    }
}

// How many bytes the prelude answers.
pub fn prelude_room(kind: SaveType) -> usize
    ensures { result ≡ prelude_room kind }
{
    match kind {
        SaveType::None => 0,
        SaveType::Sram => 0,
        SaveType::Flash64 => 0,
        SaveType::Flash128 => 0,
        SaveType::Eeprom512 => 0,
        SaveType::Eeprom8k => 1,
    }
}
