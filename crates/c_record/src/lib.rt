// The cartridge record as a C program holds it: question 2 asked of its bytes, and each chip's fields in and out.

#![tactic(auto)]

mod fields;
pub mod layout;
mod outward;

ghost use Rattle.std.specs.Prelude.{◌≡◌, true, ◌&&◌, leb};
ghost use Rattle.kind.specs.Kind.{kind_of};
ghost use Rattle.part.specs.Part.{number_fits};
ghost use Rattle.c_record.specs.RecordBytes.{is_record, Valid};

pub use fields::{eeprom_in, flash_in, kind_in, len_in, part_in};
pub use layout::RecordBytes;
pub use outward::{
    put_bit, put_eeprom, put_ended, put_flash, put_place, put_shift, put_width, record_bytes,
};

// A kind's number, and that of a part which fits it, in eight times the part and the kind: the usual part at 0 to 5,
// the named ones at five places, of which the compiler makes one test. The table of sizes would be built in every call.
fn kind_and_part(kind: u8, part: u8) -> bool
    ensures { result ≡ (leb kind 5 && number_fits part (kind_of kind)) }
{
    let place = part as u32 * 8 + kind as u32;
    if place <= 5 {
        return true;
    }
    if 5 < kind {
        return false;
    }
    match place {
        10 => true,
        18 => true,
        26 => true,
        35 => true,
        43 => true,
        _ => false,
    }
}

// Question 2.
pub fn is_record(cart: &RecordBytes) -> bool
    ensures value { result ≡ is_record cart.now }
    ensures valid { is_record cart.now ≡ true → Valid cart.now }
{
    if !kind_and_part(cart[layout::KIND], cart[layout::PART]) {
        return false;
    }
    if 1 < cart[layout::DIRTY] {
        return false;
    }
    if !image::image_length(lists::low32(cart[0], cart[1], cart[2], cart[3]) as usize) {
        return false;
    }
    chip_record::field_questions(&cart[layout::CHIP..layout::PART]).is_ok()
}
