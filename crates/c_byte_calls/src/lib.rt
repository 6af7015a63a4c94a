// `save_read` and `save_write` on the bytes of a record. In front of question 2 is the quick test; a function
// `_any` is for every record. It is called last and at two places, so that the compiler leaves it out of line and
// the quick way pays nothing for it.
// Kept: `_any` and `write_valid` answer C's number; a Result turned after the call took up to 1.2 times as long.

#![tactic(auto)]

ghost use Rattle.std.specs.Prelude.{◌≡◌, true};
ghost use Rattle.part.specs.declared.Part.TheVariants.{Usual};
ghost use Rattle.refusal.specs.Refusals.{number_of};
ghost use Rattle.c_record.specs.RecordBytes.{cart_of, Valid};
ghost use Rattle.c_record.specs.Calls.{reads, writes};

use byte_step::ByteStep;
use c_record::{RecordBytes, layout};
use memory::NO_FILE;
use part::Part;
use refusal::Refusal;

// USUAL makes two functions: with the usual part the ID words are one table by the kind, and with both tables the
// compiler would leave the function out of `save_read`.
#[tactic(auto, using(crate::proofs::ByteCalls::reading))]
fn read_with<const USUAL: bool>(
    cart: &RecordBytes,
    memory: &[u8],
    address: u32,
    value: &mut u32,
) -> Result<(), Refusal>
    requires { Valid cart.now × (USUAL ≡ true → (cart_of cart.now).part ≡ Usual) }
    ensures { (number_of result, cart.now, memory.now, value.new)
        ≡ reads address cart.now memory.now value.old }
{
    let kind = c_record::kind_in(cart);
    if memory.len() != kind::memory_size(kind) {
        return Err(Refusal::MemoryLength);
    }
    let part = if USUAL {
        Part::Usual
    } else {
        c_record::part_in(cart)
    };
    *value = byte_step::read_byte(kind, part, c_record::flash_in(cart), memory, address) as u32;
    Ok(())
}

#[tactic(auto, using(c_record::proofs::Calls::no_record))]
fn read_any(cart: &RecordBytes, memory: &[u8], address: u32, value: &mut u32) -> u32
    ensures { (result, cart.now, memory.now, value.new)
        ≡ reads address cart.now memory.now value.old }
{
    if !c_record::is_record(cart) {
        return out_params::status(Err(Refusal::Record));
    }
    out_params::status(read_with::<false>(cart, &memory[..], address, value))
}

#[tactic(auto, using(quick_tests::proofs::QuickTests::known_usual))]
pub fn save_read(cart: &RecordBytes, memory: &[u8], address: u32, value: &mut u32) -> u32
    ensures { (result, cart.now, memory.now, value.new)
        ≡ reads address cart.now memory.now value.old }
{
    if !quick_tests::known(cart) {
        return read_any(cart, memory, address, value);
    }
    if !quick_tests::bytes_usual(cart) {
        return read_any(cart, memory, address, value);
    }
    out_params::status(read_with::<true>(cart, memory, address, value))
}

// The record is updated first, so that nothing but the place stays live across an erase.
#[tactic(auto, using(crate::proofs::ByteCalls::writing))]
fn write_byte(
    cart: &mut RecordBytes,
    memory: &mut [u8],
    tallies: &mut [u16],
    address: u32,
    value: u8,
    changed: &mut u32,
) -> Result<(), Refusal>
    requires { Valid cart.old }
    ensures { (number_of result, cart.new, memory.new, tallies.new, changed.new)
        ≡ writes address value cart.old memory.old
        tallies.old changed.old }
{
    let kind = c_record::kind_in(cart);
    if memory.len() != kind::memory_size(kind) {
        return Err(Refusal::MemoryLength);
    }
    // a tally for each 4,096 bytes: no second table by the kind
    if tallies.len() != memory.len() / 4096 {
        return Err(Refusal::TallyCount);
    }
    let flash = c_record::flash_in(cart);
    let ByteStep {
        flash: next,
        sets,
        store,
    } = byte_step::write_byte(kind, flash, memory.len(), address, value);
    c_record::put_flash(cart, sets, next);
    *changed = memory::apply(store, &NO_FILE, memory, tallies);
    // a step that stores does not change ID mode
    if memory::stores(store) {
        return Ok(());
    }
    c_record::put_bit(cart, layout::ID_MODE, flash.id, next.id);
    Ok(())
}

fn write_valid(
    cart: &mut RecordBytes,
    memory: &mut [u8],
    tallies: &mut [u16],
    address: u32,
    value: u8,
    changed: &mut u32,
) -> u32
    requires { Valid cart.old }
    ensures { (result, cart.new, memory.new, tallies.new, changed.new)
        ≡ writes address value cart.old memory.old
        tallies.old changed.old }
{
    out_params::status(write_byte(cart, memory, tallies, address, value, changed))
}

#[tactic(auto, using(c_record::proofs::Calls::no_record))]
fn write_any(
    cart: &mut RecordBytes,
    memory: &mut [u8],
    tallies: &mut [u16],
    address: u32,
    value: u8,
    changed: &mut u32,
) -> u32
    ensures { (result, cart.new, memory.new, tallies.new, changed.new)
        ≡ writes address value cart.old memory.old
        tallies.old changed.old }
{
    if !c_record::is_record(cart) {
        return out_params::status(Err(Refusal::Record));
    }
    write_valid(
        cart,
        &mut memory[..],
        &mut tallies[..],
        address,
        value,
        changed,
    )
}

pub fn save_write(
    cart: &mut RecordBytes,
    memory: &mut [u8],
    tallies: &mut [u16],
    address: u32,
    value: u8,
    changed: &mut u32,
) -> u32
    ensures { (result, cart.new, memory.new, tallies.new, changed.new)
        ≡ writes address value cart.old memory.old
        tallies.old changed.old }
{
    if !quick_tests::known(cart) {
        return write_any(cart, memory, tallies, address, value, changed);
    }
    if !quick_tests::bytes_usual(cart) {
        return write_any(cart, memory, tallies, address, value, changed);
    }
    write_valid(cart, memory, tallies, address, value, changed)
}
