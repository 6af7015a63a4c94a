// Two quick tests in front of question 2, for records that calls usually meet. A test says yes only where question
// 2 does. It joins neighbouring bytes to one number and compares once; bytes that a call has just stored are tested
// one at a time, since a wider load would stall.

#![tactic(auto)]

ghost use Rattle.std.specs.Prelude.{◌≡◌, Bool, true, ◌≤◌, get_or};
ghost use Rattle.eeprom.specs.Eeprom.{width_allowed};
ghost use Rattle.c_record.specs.RecordBytes.{is_record, Valid};
ghost use Rattle.c_record.specs.Fields.{id_at};
ghost use Rattle.quick_tests.specs.QuickTests.{is_known, FieldsUsual, SerialRests, CountAllowed};

use c_record::{RecordBytes, layout};

// Kind and image length are allowed, and the part is the usual one: a test of the others would make every call longer.
#[tactic(auto, using(crate::proofs::QuickTests::knows))]
pub fn known(cart: &RecordBytes) -> bool
    ensures value { result ≡ is_known cart.now }
    ensures valid { is_record cart.now ≡ true → Valid cart.now }
{
    if 5 < cart[layout::KIND] {
        return false;
    }
    if cart[layout::PART] != 0 {
        return false;
    }
    image::image_length(lists::low32(cart[0], cart[1], cart[2], cart[3]) as usize)
}

// No ID mode but 0 or 1, and the serial chip at rest.
fn serial_rests(cart: &RecordBytes) -> bool
    ensures { result ≡ true → (get_or cart.now id_at 0 ≤ 1)
        × SerialRests cart.now }
{
    lists::low64(
        lists::low32(
            cart[layout::ID_MODE],
            cart[layout::WIDTH],
            cart[layout::LARGE],
            cart[layout::PHASE],
        ),
        lists::low32(
            cart[layout::COUNT],
            cart[layout::BLOCK],
            cart[layout::BLOCK + 1],
            cart[layout::PLACE],
        ),
    ) <= 1
}

// For the byte calls: the serial chip is at rest. The state is asked before what the read goes on with is loaded:
// later, no register is free for its two comparisons.
#[tactic(auto, using(crate::proofs::QuickTests::rests))]
pub fn bytes_usual(cart: &RecordBytes) -> bool
    ensures { result ≡ true → is_known cart.now ≡ true
        → is_record cart.now ≡ true }
{
    if 1 < cart[layout::DIRTY] {
        return false;
    }
    if !flash::state_allowed(cart[layout::FLASH_STATE]) {
        return false;
    }
    if 1 < cart[layout::BANK] {
        return false;
    }
    serial_rests(cart)
}

// The flash chip is at rest, and the serial chip's fields are allowed, phase and count left out.
#[tactic(auto, using(crate::proofs::QuickTests::rests))]
fn fields_usual(cart: &RecordBytes) -> bool
    ensures { result ≡ true → FieldsUsual cart.now }
{
    if 1 < lists::low32(
        cart[layout::DIRTY],
        cart[layout::FLASH_STATE],
        cart[layout::BANK],
        cart[layout::ID_MODE],
    ) {
        return false;
    }
    if 1 < cart[layout::LARGE] {
        return false;
    }
    if !eeprom::width_allowed(cart[layout::WIDTH]) {
        return false;
    }
    if 3 < cart[layout::BLOCK + 1] {
        return false;
    }
    cart[layout::PLACE] <= 67
}

// The count is below the limit of its phase; of an address of 14 bits whose width no DMA has told, only the first six.
fn count_usual(phase: u8, count: u8, width: u8) -> bool
    ensures { result ≡ true → width_allowed width ≡ true
        → (large : Bool) → CountAllowed phase count width large }
{
    if count == 0 {
        return phase <= 6;
    }
    if phase == 3 {
        return count < 64;
    }
    if phase == 0 {
        return count < 2;
    }
    if 3 < phase {
        return false;
    }
    if count < 6 {
        return true;
    }
    count < width
}

// For the serial calls: the flash chip is at rest.
#[tactic(auto, using(crate::proofs::QuickTests::rests))]
pub fn serial_usual(cart: &RecordBytes) -> bool
    ensures { result ≡ true → is_known cart.now ≡ true
        → is_record cart.now ≡ true }
{
    fields_usual(cart)
        && count_usual(
            cart[layout::PHASE],
            cart[layout::COUNT],
            cart[layout::WIDTH],
        )
}

// Question 2, of records whose flash chip is usually at rest.
pub fn is_record(cart: &RecordBytes) -> bool
    ensures value { result ≡ is_record cart.now }
    ensures valid { is_record cart.now ≡ true → Valid cart.now }
{
    known(cart) && serial_usual(cart) || c_record::is_record(cart)
}
