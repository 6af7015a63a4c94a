// `eeprom_begin_dma`, `eeprom_write` and `eeprom_read`: the serial calls by value.

#![tactic(auto)]

ghost use Rattle.std.specs.Prelude.{◌≡◌, true, List, [], ℕ, length};
ghost use Rattle.kind.specs.Kind.{memory_size, tally_count, uses_eeprom};
ghost use Rattle.cart.specs.Record.{record_allowed, counted};
ghost use Rattle.cart.specs.Calls.{eeprom_begin_dma, eeprom_write, eeprom_read, accepted, step};
ghost use Rattle.cart.specs.Replies.{state, tallied, accepted_reply, reply_from, replied, store_replied};

use cart::{Accepted, Cartridge, Reply};
use memory::NO_FILE;
use refusal::Refusal;

// Takes no memory; the contract holds for any memory.
pub fn eeprom_begin_dma(cart: Cartridge, words: usize) -> Reply
    ensures { (m : List ℕ) →
        (reply_from cart result, m) ≡ replied (step (eeprom_begin_dma words) [] (state cart m)) }
{
    cart::ask_record(cart)?;
    let e = cart.chip.eeprom;
    if !eeprom::dma_allowed(words, e) {
        return Err(Refusal::DmaTooLate);
    }
    Ok(cart::done(
        0,
        cart::with_eeprom(cart, cart.dirty, eeprom::begin_dma(words, e)),
    ))
}

// An accepted `eeprom_write`.
fn bit_in(cart: Cartridge, memory: &mut [u8], tallies: &mut [u16], value: u16) -> Accepted
    requires { (record_allowed cart ≡ true)
        × (uses_eeprom cart.kind ≡ true)
        × (length memory.old ≡ memory_size cart.kind)
        × (length tallies.old ≡ tally_count cart.kind) }
    ensures { let s = tallied cart memory.old tallies.old in
        (accepted_reply result, memory.new, tallies.new)
        ≡ store_replied (counted s (accepted (eeprom_write value) [] s)) }
{
    let t = eeprom::write_bit(cart.chip.eeprom, (value % 2) as u64);
    let changed = memory::apply(t.store, &NO_FILE, memory, tallies);
    cart::stored(
        changed,
        cart::with_eeprom(
            cart,
            memory::flag_after(memory::stores(t.store), cart.dirty),
            t.eeprom,
        ),
    )
}

pub fn eeprom_write(cart: Cartridge, memory: &mut [u8], tallies: &mut [u16], value: u16) -> Reply
    ensures { let s = tallied cart memory.old tallies.old in
        (reply_from cart result, memory.new, tallies.new)
        ≡ store_replied (step (eeprom_write value) [] s) }
{
    cart::store_door(cart, memory.len(), tallies.len())?;
    if !kind::uses_eeprom(cart.kind) {
        return Err(Refusal::NoEeprom);
    }
    Ok(bit_in(cart, memory, tallies, value))
}

pub fn eeprom_read(cart: Cartridge, memory: &[u8]) -> Reply
    ensures { (reply_from cart result, memory.now)
        ≡ replied (step eeprom_read [] (state cart memory.now)) }
{
    cart::door(cart, memory.len())?;
    let e = cart.chip.eeprom;
    let value = eeprom::read_bit(kind::uses_eeprom(cart.kind), e, memory);
    Ok(cart::done(
        u32::from(value),
        cart::with_eeprom(cart, cart.dirty, eeprom::after_read(e)),
    ))
}
