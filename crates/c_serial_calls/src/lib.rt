// `eeprom_begin_dma`, `eeprom_write` and `eeprom_read` on the bytes of a record. In front of question 2 is the
// quick test; a function `_any` is for every record. It is called last and at two places, so that the compiler
// leaves it out of line and the quick way pays nothing for it.
// A refusal becomes the number that C is returned before the last call ends, in `_any` and `write_valid`: made after
// it, the number would cost the jump to it (a bit out in ID mode took 1.15 times as long).

#![tactic(auto)]

ghost use Rattle.std.specs.Prelude.{◌≡◌, List, [], ℕ, ◌<◌, length};
ghost use Rattle.memory.specs.Memory.{stored, with_count, stores, Tallied, Fits};
ghost use Rattle.eeprom.specs.Eeprom.{turned};
ghost use Rattle.refusal.specs.Refusals.{number_of};
ghost use Rattle.c_record.specs.RecordBytes.{Valid};
ghost use Rattle.c_record.specs.Fields.{with_serial};
ghost use Rattle.c_record.specs.Calls.{announces, takes_bit, gives_bit};

use c_record::RecordBytes;
use eeprom::{Drawn, Eeprom, EepromStep, Shifted};
use memory::NO_FILE;
use refusal::Refusal;

// Takes no memory; the contract holds for any memory.
#[tactic(auto, using(crate::proofs::SerialCalls::announcing))]
fn dma_valid(cart: &mut RecordBytes, words: u32) -> Result<(), Refusal>
    requires { Valid cart.old }
    ensures { (m : List ℕ) → (number_of result, cart.new, m) ≡ announces words cart.old m }
{
    let e = c_record::eeprom_in(cart);
    if !eeprom::dma_allowed(words as usize, e) {
        return Err(Refusal::DmaTooLate);
    }
    let next = eeprom::begin_dma(words as usize, e);
    c_record::put_width(cart, next.width, next.large);
    Ok(())
}

#[tactic(auto, using(c_record::proofs::Calls::no_record))]
fn dma_any(cart: &mut RecordBytes, words: u32) -> u32
    ensures { (m : List ℕ) → (result, cart.new, m) ≡ announces words cart.old m }
{
    if !c_record::is_record(cart) {
        return out_params::status(Err(Refusal::Record));
    }
    out_params::status(dma_valid(cart, words))
}

pub fn eeprom_begin_dma(cart: &mut RecordBytes, words: u32) -> u32
    ensures { (m : List ℕ) → (result, cart.new, m) ≡ announces words cart.old m }
{
    if !quick_tests::known(cart) {
        return dma_any(cart, words);
    }
    if !quick_tests::serial_usual(cart) {
        return dma_any(cart, words);
    }
    out_params::status(dma_valid(cart, words))
}

// A bit that ends a phase. The record is updated first, so that nothing stays live across the store.
fn turn_in(
    cart: &mut RecordBytes,
    memory: &mut [u8],
    tallies: &mut [u16],
    e: Eeprom,
    acc: u64,
    b: u64,
) -> u32
    requires b_bound { (b < 2) × Fits (turned e acc b).store (length memory.old) }
    requires tallied { Tallied (length memory.old) tallies.old }
    ensures cart_after { cart.new
        ≡ with_serial cart.old (stores (turned e acc b).store) (turned e acc b).eeprom }
    ensures tallies_after { (result, memory.new, tallies.new)
        ≡ with_count memory.old (stored (turned e acc b).store [] memory.old)
        tallies.old }
{
    let EepromStep {
        eeprom: next,
        store,
    } = eeprom::turn(e, acc, b);
    c_record::put_eeprom(cart, memory::stores(store), next);
    memory::apply(store, &NO_FILE, memory, tallies)
}

#[tactic(auto, using(crate::proofs::SerialCalls::bits_in))]
fn take_bit(
    cart: &mut RecordBytes,
    memory: &mut [u8],
    tallies: &mut [u16],
    value: u16,
    changed: &mut u32,
) -> Result<(), Refusal>
    requires { Valid cart.old }
    ensures { (number_of result, cart.new, memory.new, tallies.new, changed.new)
        ≡ takes_bit value cart.old memory.old
        tallies.old changed.old }
{
    let kind = c_record::kind_in(cart);
    if memory.len() != kind::memory_size(kind) {
        return Err(Refusal::MemoryLength);
    }
    if tallies.len() != kind::tally_count(kind) {
        return Err(Refusal::TallyCount);
    }
    if !kind::uses_eeprom(kind) {
        return Err(Refusal::NoEeprom);
    }
    let b = (value % 2) as u64;
    let e = c_record::eeprom_in(cart);
    match eeprom::shift(e.phase, e.count, eeprom::w(e.width, e.large), e.acc, b) {
        Shifted::More(acc, count) => {
            c_record::put_shift(cart, count, acc);
            *changed = 0;
            Ok(())
        }
        Shifted::Full(acc) => {
            *changed = turn_in(cart, memory, tallies, e, acc, b);
            Ok(())
        }
    }
}

fn write_valid(
    cart: &mut RecordBytes,
    memory: &mut [u8],
    tallies: &mut [u16],
    value: u16,
    changed: &mut u32,
) -> u32
    requires { Valid cart.old }
    ensures { (result, cart.new, memory.new, tallies.new, changed.new)
        ≡ takes_bit value cart.old memory.old
        tallies.old changed.old }
{
    out_params::status(take_bit(cart, memory, tallies, value, changed))
}

#[tactic(auto, using(c_record::proofs::Calls::no_record))]
fn write_any(
    cart: &mut RecordBytes,
    memory: &mut [u8],
    tallies: &mut [u16],
    value: u16,
    changed: &mut u32,
) -> u32
    ensures { (result, cart.new, memory.new, tallies.new, changed.new)
        ≡ takes_bit value cart.old memory.old
        tallies.old changed.old }
{
    if !c_record::is_record(cart) {
        return out_params::status(Err(Refusal::Record));
    }
    write_valid(cart, &mut memory[..], &mut tallies[..], value, changed)
}

pub fn eeprom_write(
    cart: &mut RecordBytes,
    memory: &mut [u8],
    tallies: &mut [u16],
    value: u16,
    changed: &mut u32,
) -> u32
    ensures { (result, cart.new, memory.new, tallies.new, changed.new)
        ≡ takes_bit value cart.old memory.old
        tallies.old changed.old }
{
    if !quick_tests::known(cart) {
        return write_any(cart, memory, tallies, value, changed);
    }
    if !quick_tests::serial_usual(cart) {
        return write_any(cart, memory, tallies, value, changed);
    }
    write_valid(cart, memory, tallies, value, changed)
}

#[tactic(auto, using(crate::proofs::SerialCalls::bits_out))]
fn read_valid(cart: &mut RecordBytes, memory: &[u8], bit: &mut u32) -> Result<(), Refusal>
    requires { Valid cart.old }
    ensures { (number_of result, cart.new, memory.now, bit.new)
        ≡ gives_bit cart.old memory.now bit.old }
{
    let kind = c_record::kind_in(cart);
    if memory.len() != kind::memory_size(kind) {
        return Err(Refusal::MemoryLength);
    }
    let e = c_record::eeprom_in(cart);
    *bit = eeprom::read_bit(kind::uses_eeprom(kind), e, memory) as u32;
    match eeprom::draw(e.phase, e.place) {
        Drawn::Nothing => Ok(()),
        Drawn::Place(place) => {
            c_record::put_place(cart, place);
            Ok(())
        }
        Drawn::Ended => {
            c_record::put_ended(cart);
            Ok(())
        }
    }
}

#[tactic(auto, using(c_record::proofs::Calls::no_record))]
fn read_any(cart: &mut RecordBytes, memory: &[u8], bit: &mut u32) -> u32
    ensures { (result, cart.new, memory.now, bit.new)
        ≡ gives_bit cart.old memory.now bit.old }
{
    if !c_record::is_record(cart) {
        return out_params::status(Err(Refusal::Record));
    }
    out_params::status(read_valid(cart, &memory[..], bit))
}

pub fn eeprom_read(cart: &mut RecordBytes, memory: &[u8], bit: &mut u32) -> u32
    ensures { (result, cart.new, memory.now, bit.new)
        ≡ gives_bit cart.old memory.now bit.old }
{
    if !quick_tests::known(cart) {
        return read_any(cart, memory, bit);
    }
    if !quick_tests::serial_usual(cart) {
        return read_any(cart, memory, bit);
    }
    out_params::status(read_valid(cart, memory, bit))
}
