// The save memory, and every change of it.

#![tactic(auto)]

mod files;
mod leaves;
mod parts;

ghost use Rattle.std.specs.Prelude.{◌≡◌, ◌||◌, length, replicate};
ghost use Rattle.memory.specs.Memory.{erased, stored, with_count, stores, Tallied, Fits};

pub use files::copy_file;

// What a call stores. A chip's step returns one and touches no memory itself.
#[derive(Clone, Copy)]
pub enum Store {
    Nothing,
    // a byte: place, value
    Byte(usize, u8),
    // eight bytes: block, data word
    Block(usize, u64),
    // the 4,096-byte sector that holds this place
    Sector(usize),
    // the whole chip, erased
    Chip,
    // the file that the call was passed; the rest is erased
    File,
}

// For calls that are passed no file.
pub const NO_FILE: [u8; 0] = [];

// Every store, with the loops that count. A chip's erase is the load of an empty file.
fn apply_any(store: Store, file: &[u8], memory: &mut [u8], tallies: &mut [u16]) -> u32
    requires tallied { Tallied (length memory.old) tallies.old }
    requires fits { Fits store (length memory.old) }
    ensures { (result, memory.new, tallies.new)
        ≡ with_count memory.old (stored store file.now memory.old)
        tallies.old }
{
    match store {
        Store::Nothing => 0,
        Store::Byte(place, value) => leaves::put_byte(memory, place, value, tallies),
        Store::Block(block, word) => leaves::put_block(memory, block, word, tallies),
        Store::Sector(place) => leaves::erase_sector(memory, place, tallies),
        Store::Chip => leaves::load(memory, &NO_FILE, tallies),
        Store::File => leaves::load(memory, file, tallies),
    }
}

// Every change of a save memory is made here, and the tallies change with it. Answers how many places of the memory
// changed. `apply_any` is called at several places, so that the compiler leaves it out of line; each passes a store of
// its own, so that the one given stays in registers. A byte pays for neither.
pub fn apply(store: Store, file: &[u8], memory: &mut [u8], tallies: &mut [u16]) -> u32
    requires tallied { Tallied (length memory.old) tallies.old }
    requires fits { Fits store (length memory.old) }
    ensures { (result, memory.new, tallies.new)
        ≡ with_count memory.old (stored store file.now memory.old)
        tallies.old }
{
    match store {
        Store::Nothing => 0,
        Store::Byte(place, value) => leaves::put_byte(memory, place, value, tallies),
        Store::Block(block, word) => apply_any(
            Store::Block(block, word),
            &file[..],
            memory,
            tallies,
        ),
        Store::Sector(_) | Store::Chip | Store::File => {
            let part = store;
            apply_any(part, &file[..], memory, tallies)
        }
    }
}

// A memory and its tallies at an opening: FFh everywhere, and no byte in use.
#[tactic(auto, unfolding(crate::specs::Memory::erased))]
pub fn blank(memory: &mut [u8], tallies: &mut [u16])
    ensures memory_after { memory.new ≡ erased (length memory.old) }
    ensures tallies_after { tallies.new ≡ replicate (length tallies.old) 0 }
{
    lists::fill(memory, 0xFF);
    counts::clear(tallies);
}

// Whether a chip's step that stores so sets the changed flag.
pub fn stores(store: Store) -> bool
    ensures { result ≡ stores store }
{
    !matches!(store, Store::Nothing | Store::File)
}

// The changed flag after a step; no step clears it.
pub fn flag_after(sets: bool, dirty: bool) -> bool
    ensures { result ≡ (sets || dirty) }
{
    sets || dirty
}
