// `load_save`, `save_data` and import on the bytes of a record.
// Kept: a call answers the number of a refusal, which C is returned.

#![tactic(auto)]

ghost use Rattle.std.specs.Prelude.{◌≡◌, [], length};
ghost use Rattle.kind.specs.Kind.{memory_size, tally_count};
ghost use Rattle.cart.specs.Record.{counted};
ghost use Rattle.cart.specs.Calls.{load_save, accepted};
ghost use Rattle.c_record.specs.RecordBytes.{cart_of, Valid, state_of};
ghost use Rattle.c_record.specs.AtExit.{left, changed_at};
ghost use Rattle.c_record.specs.Calls.{loads, exports, imports};

use c_record::{RecordBytes, layout};
use memory::Store;
use refusal::Refusal;

// An accepted load: of the record only `large` may change. The memory comes last, so that nothing stays live across it.
// Answers how many bytes of the memory changed.
fn load_valid(cart: &mut RecordBytes, memory: &mut [u8], tallies: &mut [u16], file: &[u8]) -> u32
    requires valid { Valid cart.old × (length memory.old ≡ memory_size (cart_of cart.old).kind) }
    requires tallies_len { length tallies.old ≡ tally_count (cart_of cart.old).kind }
    ensures { let s = state_of cart.old memory.old tallies.old in
        (0, cart.new, memory.new, tallies.new, result)
        ≡ changed_at 0 (left (counted s (accepted (load_save file.now) [] s))) }
{
    let large = cart[layout::LARGE] == 1;
    let next = file_calls::large_after(c_record::kind_in(cart), large, file.len());
    c_record::put_bit(cart, layout::LARGE, large, next);
    memory::apply(Store::File, file, memory, tallies)
}

pub fn load_save(
    cart: &mut RecordBytes,
    memory: &mut [u8],
    tallies: &mut [u16],
    file: &[u8],
    changed: &mut u32,
) -> u32
    ensures { (result, cart.new, memory.new, tallies.new, changed.new)
        ≡ loads file.now cart.old memory.old
        tallies.old changed.old }
{
    if !quick_tests::is_record(cart) {
        return Refusal::Record as u32;
    }
    let kind = c_record::kind_in(cart);
    if memory.len() != kind::memory_size(kind) {
        return Refusal::MemoryLength as u32;
    }
    if tallies.len() != kind::tally_count(kind) {
        return Refusal::TallyCount as u32;
    }
    // a slice cut anew is passed in registers
    *changed = load_valid(cart, memory, tallies, &file[..]);
    0
}

pub fn save_data(cart: &RecordBytes, memory: &[u8], destination: &mut [u8], length: &mut u32) -> u32
    ensures { (result, cart.now, memory.now, destination.new, length.new)
        ≡ exports destination.old cart.now memory.now length.old }
{
    if !c_record::is_record(cart) {
        return Refusal::Record as u32;
    }
    let kind = c_record::kind_in(cart);
    if memory.len() != kind::memory_size(kind) {
        return Refusal::MemoryLength as u32;
    }
    let n = file_calls::file_length(kind, cart[layout::LARGE] == 1);
    if destination.len() < n {
        return Refusal::DestinationLength as u32;
    }
    memory::copy_file(destination, &memory[..n]);
    *length = n as u32;
    0
}

// The part of the file that the kind keeps is loaded, and its length answered.
pub fn import_save(
    cart: &mut RecordBytes,
    memory: &mut [u8],
    tallies: &mut [u16],
    file: &[u8],
    kept: &mut u32,
    changed: &mut u32,
) -> u32
    ensures { (
      result,
      cart.new,
      memory.new,
      tallies.new,
      kept.new,
      changed.new,
    )
        ≡ imports file.now cart.old memory.old tallies.old
        kept.old changed.old }
{
    if !c_record::is_record(cart) {
        return Refusal::Record as u32;
    }
    let kind = c_record::kind_in(cart);
    if memory.len() != kind::memory_size(kind) {
        return Refusal::MemoryLength as u32;
    }
    if tallies.len() != kind::tally_count(kind) {
        return Refusal::TallyCount as u32; // asked before 14
    }
    if !file_sizes::takes(kind, file.len()) {
        return Refusal::FileLength as u32;
    }
    let part = file_sizes::kept_part(kind, file);
    *changed = load_valid(cart, memory, tallies, part);
    *kept = part.len() as u32;
    0
}
