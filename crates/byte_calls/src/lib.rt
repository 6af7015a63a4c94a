// `save_read` and `save_write`: the byte calls by value.

#![tactic(auto)]

ghost use Rattle.std.specs.Prelude.{◌≡◌, [], length};
ghost use Rattle.kind.specs.Kind.{memory_size, tally_count};
ghost use Rattle.cart.specs.Record.{counted};
ghost use Rattle.cart.specs.Calls.{save_read, save_write, read_save, accepted, step};
ghost use Rattle.cart.specs.Replies.{state, tallied, accepted_reply, reply_from, replied, store_replied};

use cart::{Accepted, Cartridge, Reply};
use memory::NO_FILE;

fn read_save(cart: Cartridge, memory: &[u8], address: u32) -> u8
    requires { length memory.now ≡ memory_size cart.kind }
    ensures { result ≡ read_save cart.kind (state cart memory.now) address }
{
    byte_step::read_byte(cart.kind, cart.part, cart.chip.flash, memory, address)
}

pub fn save_read(cart: Cartridge, memory: &[u8], address: u32) -> Reply
    ensures { (reply_from cart result, memory.now)
        ≡ replied (step (save_read address) [] (state cart memory.now)) }
{
    cart::door(cart, memory.len())?;
    Ok(cart::done(u32::from(read_save(cart, memory, address)), cart))
}

// An accepted `save_write`.
fn write_save(
    cart: Cartridge,
    memory: &mut [u8],
    tallies: &mut [u16],
    address: u32,
    value: u8,
) -> Accepted
    requires memory_len { length memory.old ≡ memory_size cart.kind }
    requires tallies_len { length tallies.old ≡ tally_count cart.kind }
    ensures { let s = tallied cart memory.old tallies.old in
        (accepted_reply result, memory.new, tallies.new)
        ≡ store_replied (counted s (accepted (save_write address value) [] s)) }
{
    let flash = cart.chip.flash;
    let t = byte_step::write_byte(cart.kind, flash, memory.len(), address, value);
    let changed = memory::apply(t.store, &NO_FILE, memory, tallies);
    cart::stored(
        changed,
        cart::with_flash(cart, memory::flag_after(t.sets, cart.dirty), t.flash),
    )
}

pub fn save_write(
    cart: Cartridge,
    memory: &mut [u8],
    tallies: &mut [u16],
    address: u32,
    value: u8,
) -> Reply
    ensures { let s = tallied cart memory.old tallies.old in
        (reply_from cart result, memory.new, tallies.new)
        ≡ store_replied (step (save_write address value) [] s) }
{
    cart::store_door(cart, memory.len(), tallies.len())?;
    Ok(write_save(cart, memory, tallies, address, value))
}
