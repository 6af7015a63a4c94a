// `load_save` and `save_data`: the file calls by value.

#![tactic(auto)]

ghost use Rattle.std.specs.Prelude.{◌≡◌, [], length};
ghost use Rattle.kind.specs.Kind.{memory_size, tally_count};
ghost use Rattle.cart.specs.Record.{counted};
ghost use Rattle.cart.specs.Calls.{large_after, load_save, save_data, accepted, step};
ghost use Rattle.cart.specs.Replies.{state, tallied, accepted_reply, reply_from, export_replied, store_replied};
ghost use Rattle.file_calls.specs.Files.{eeprom_length, file_length};

use cart::{Accepted, Cartridge, Reply};
use kind::SaveType;
use memory::Store;
use refusal::Refusal;

// Whether an EEPROM is large after a file of n bytes was loaded.
#[tactic(auto, using(lists::proofs::Bools::tests))]
pub fn large_after(kind: SaveType, large: bool, n: usize) -> bool
    ensures { result ≡ large_after kind large n }
{
    large || kind::uses_eeprom(kind) && 512 < n
}

// An accepted `load_save`.
fn load(cart: Cartridge, memory: &mut [u8], tallies: &mut [u16], file: &[u8]) -> Accepted
    requires memory_len { length memory.old ≡ memory_size cart.kind }
    requires tallies_len { length tallies.old ≡ tally_count cart.kind }
    ensures { let s = tallied cart memory.old tallies.old in
        (accepted_reply result, memory.new, tallies.new)
        ≡ store_replied (counted s (accepted (load_save file.now) [] s)) }
{
    let e = cart.chip.eeprom;
    let changed = memory::apply(Store::File, file, memory, tallies);
    cart::stored(
        changed,
        cart::with_eeprom(
            cart,
            cart.dirty,
            eeprom::told(e.width, large_after(cart.kind, e.large, file.len()), e),
        ),
    )
}

pub fn load_save(cart: Cartridge, memory: &mut [u8], tallies: &mut [u16], file: &[u8]) -> Reply
    ensures { let s = tallied cart memory.old tallies.old in
        (reply_from cart result, memory.new, tallies.new)
        ≡ store_replied (step (load_save file.now) [] s) }
{
    cart::store_door(cart, memory.len(), tallies.len())?;
    Ok(load(cart, memory, tallies, file))
}

fn eeprom_length(large: bool) -> usize
    ensures { result ≡ eeprom_length large }
{
    if large { 8192 } else { 512 }
}

// Length of the file that `save_data` writes; 0 for kind None, which has no file.
// Kept: a public promise; no kind has a file of 0 bytes.
pub fn file_length(kind: SaveType, large: bool) -> usize
    ensures { result ≡ file_length kind large }
{
    if kind::uses_eeprom(kind) {
        return eeprom_length(large);
    }
    kind::memory_size(kind)
}

// Writes the file to the front of the destination and answers its length.
pub fn save_data(cart: Cartridge, memory: &[u8], destination: &mut [u8]) -> Reply
    ensures { (reply_from cart result, destination.new)
        ≡ export_replied (step save_data destination.old (state cart memory.now)) }
{
    cart::door(cart, memory.len())?;
    let n = file_length(cart.kind, cart.chip.eeprom.large);
    if destination.len() < n {
        return Err(Refusal::DestinationLength);
    }
    memory::copy_file(destination, &memory[..n]);
    Ok(cart::done(n as u32, cart))
}
