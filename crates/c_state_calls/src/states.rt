// Opening, `chip_state` and restore.
// Kept: a call answers the number of a refusal, which C is returned.
ghost use Rattle.std.specs.Prelude.{◌≡◌, List, [], ◌∷◌, ◌++◌, ℕ, eqb, length, get_or, set};
ghost use Rattle.lists.specs.Lists.{bit, with_part};
ghost use Rattle.chip_record.specs.ChipState.{chip_record_size};
ghost use Rattle.chip_record.specs.States.{state_size, layout_number, flag_from};
ghost use Rattle.c_record.specs.RecordBytes.{record_size, dirty_at, chip_at, chip_in};
ghost use Rattle.c_record.specs.Calls.{opens, gives_state, restores};

use c_record::{RecordBytes, layout};
use chip_record::{StateBytes, layout as state};
use refusal::Refusal;

// The record is written whatever it was: all 0 if the opening is refused.
pub fn from_bytes(
    cart: &mut RecordBytes,
    image: &[u8],
    part: u32,
    memory: &mut [u8],
    tallies: &mut [u16],
) -> u32
    ensures { (result, cart.new, memory.new, tallies.new)
        ≡ opens image.now part memory.old tallies.old }
{
    let opened = state_calls::from_number(image, part, memory, tallies);
    *cart = c_record::record_bytes(cart::record_after(state_calls::no_cart(), opened));
    match opened {
        Ok(_) => 0,
        Err(refusal) => u32::from(refusal.number()),
    }
}

// A state of layout 2, out of a record: the chip record's bytes, the flag, the layout's number.
fn copy_out(cart: &[u8], bytes: &mut [u8])
    requires { (length cart.now ≡ record_size) × (length bytes.old ≡ state_size) }
    ensures { bytes.new
        ≡ chip_in cart.now ++ (get_or cart.now dirty_at 0 ∷ layout_number ∷ []) }
{
    memory::copy_file(bytes, &cart[layout::CHIP..layout::PART]);
    bytes[state::FLAG] = cart[layout::DIRTY];
    bytes[state::LAYOUT] = state::LAYOUT_2;
}

// The chip record's bytes, into a record.
fn copy_in(cart: &mut [u8], bytes: &[u8])
    requires { (length cart.old ≡ record_size) × (length bytes.now ≡ chip_record_size) }
    ensures { cart.new ≡ with_part cart.old chip_at bytes.now }
{
    memory::copy_file(&mut cart[layout::CHIP..layout::PART], bytes);
}

// The flag of a state, into a record, whose own it is where the state has none.
fn put_flag(cart: &mut RecordBytes, bytes: &[u8])
    ensures { let r = cart.old in
        cart.new ≡ set r dirty_at (bit (flag_from bytes.now (eqb (get_or r dirty_at 0) 1))) }
{
    let dirty = cart[layout::DIRTY] == 1;
    cart[layout::DIRTY] = lists::bit(chip_record::flag_from(bytes, dirty));
}

// The calls below take no memory; their contracts hold for any memory.
pub fn chip_state(cart: &RecordBytes, bytes: &mut StateBytes) -> u32
    ensures { (m : List ℕ) →
        (result, cart.now, m, bytes.new)
        ≡ gives_state cart.now m bytes.old }
{
    if !c_record::is_record(cart) {
        return Refusal::Record as u32;
    }
    copy_out(&cart[..], &mut bytes[..]);
    0
}

pub fn restore_chip_state(cart: &mut RecordBytes, bytes: &[u8]) -> u32
    ensures { (m : List ℕ) →
        (result, cart.new, m)
        ≡ restores bytes.now cart.old m }
{
    if !c_record::is_record(cart) {
        return Refusal::Record as u32;
    }
    if let Err(refusal) = chip_record::state_questions(bytes) {
        return u32::from(refusal.number());
    }
    copy_in(&mut cart[..], &bytes[..state::CHIP_SIZE]);
    put_flag(cart, bytes);
    0
}
