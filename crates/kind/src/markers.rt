// The kind of an image: its game code, then the markers that occur in it, then its title. Each marker is searched for
// on its own, as document 01 has it; the calls use the single reading of the crate `matcher`.
ghost use Rattle.std.specs.Prelude.{◌≡◌};
ghost use Rattle.kind.specs.Kind.{stands, eeprom_kind, detect_save_type};

use crate::SaveType;
use crate::header::{flash_code, ruby_title, sram_code};

// Whether the marker occurs anywhere, however far back.
pub fn contains(s: &[u8], marker: &[u8]) -> bool
    ensures { result ≡ stands marker.now s.now }
{
    for place in 0..s.len() {
        if lists::begins(&s[place..], marker) {
            return true;
        }
    }
    false
}

pub fn eeprom_kind(length: usize) -> SaveType
    ensures { result ≡ eeprom_kind length }
{
    if 16777216 < length {
        SaveType::Eeprom8k
    } else {
        SaveType::Eeprom512
    }
}

#[tactic(auto, unfolding(crate::specs::Kind::detect_save_type))]
pub fn detect_save_type(image: &[u8]) -> SaveType
    ensures { result ≡ detect_save_type image.now }
{
    if sram_code(image) {
        return SaveType::Sram;
    }
    if flash_code(image) {
        return SaveType::Flash128;
    }
    if contains(image, b"SRAM_V") {
        return SaveType::Sram;
    }
    if contains(image, b"FLASH_V") || contains(image, b"FLASH512_V") {
        return SaveType::Flash64;
    }
    if contains(image, b"FLASH1M_V") {
        return SaveType::Flash128;
    }
    if contains(image, b"EEPROM_V") {
        return eeprom_kind(image.len());
    }
    if ruby_title(image) {
        return SaveType::Flash128;
    }
    SaveType::None
}
