// The kind of an image, by what the matcher has seen.
ghost use Rattle.std.specs.Prelude.{◌≡◌};
ghost use Rattle.kind.specs.Kind.{detect_save_type};
ghost use Rattle.matcher.specs.Search.{code_decides, found as found_def, kind_after};

use crate::feeding::feed;
use crate::step::start;
use crate::{Found, Matcher};
use kind::SaveType;

fn code_decides(image: &[u8]) -> bool
    ensures { result ≡ code_decides image.now }
{
    kind::sram_code(image) || kind::flash_code(image)
}

// The kind by header, length and the matcher after the image's bytes.
#[tactic(auto, unfolding(crate::specs::Search::kind_after))]
pub fn finish(m: Matcher, header: &[u8], length: usize) -> SaveType
    ensures { result ≡ kind_after header.now length m }
{
    if kind::sram_code(header) {
        return SaveType::Sram;
    }
    if kind::flash_code(header) {
        return SaveType::Flash128;
    }
    if m.sram {
        return SaveType::Sram;
    }
    if m.flash64 {
        return SaveType::Flash64;
    }
    if m.flash128 {
        return SaveType::Flash128;
    }
    if m.eeprom {
        return kind::eeprom_kind(length);
    }
    if kind::ruby_title(header) {
        return SaveType::Flash128;
    }
    SaveType::None
}

// The kind, and how many bytes the matcher was handed for it: none where the game code decides.
pub fn search(image: &[u8]) -> Found
    ensures { result ≡ found_def image.now }
{
    if code_decides(image) {
        return Found {
            kind: finish(start(), image, image.len()),
            count: 0,
        };
    }
    let read = feed(start(), image);
    Found {
        kind: finish(read.matcher, image, image.len()),
        count: read.count,
    }
}

// The kind alone, for the calls.
#[tactic(auto, unfolding(crate::specs::Search::found))]
pub fn detect_save_type(image: &[u8]) -> SaveType
    ensures { result ≡ detect_save_type image.now }
{
    search(image).kind
}
