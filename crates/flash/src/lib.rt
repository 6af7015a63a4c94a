// The flash chip: bytes 0 to 2 of the chip record.

#![tactic(auto)]

mod writes;

ghost use Rattle.std.specs.Prelude.{◌≡◌, ◌<◌, length};
ghost use Rattle.flash.specs.Flash.{state_allowed, place, id_byte, shown_byte};

use memory::Store;
pub use writes::flash_write;

#[derive(Clone, Copy)]
pub struct Flash {
    // 0 to 2 and 4 to 8: how far a command has come
    // Kept: a byte of the chip record as C and old states bring it, which `state_allowed` asks.
    pub state: u8,
    pub bank: u8,
    // ID mode
    pub id: bool,
}

// What a written byte leads to: the chip, and what is to be stored.
// Kept: clauses and definitions call the chip by its name; a step generic in the chip would lose it.
#[derive(Clone, Copy)]
pub struct FlashStep {
    pub flash: Flash,
    pub store: Store,
}

#[tactic(auto, using(lists::proofs::Bools::tests), unfolding(crate::specs::Flash::state_allowed))]
pub fn state_allowed(state: u8) -> bool
    ensures { result ≡ state_allowed state }
{
    state != 3 && state <= 8
}

// Where an address leads in a memory of n bytes. Only a chip with one bank in bank 1 pays for a division.
#[tactic(auto, unfolding(crate::specs::Flash::place))]
pub fn place(flash: Flash, n: usize, address: u32) -> usize
    requires { 0 < n }
    ensures { (result ≡ place flash n address) × (result < n) }
{
    let at = flash.bank as usize * 65536 + address as usize % 65536;
    if at < n {
        return at;
    }
    at % n
}

// In ID mode: the maker's byte at even addresses, the device's at odd ones.
#[tactic(auto, using(lists::proofs::Bools::tests), unfolding(crate::specs::Flash::id_byte))]
pub fn id_byte(word: u16, address: u32) -> u8
    ensures { result ≡ id_byte word address }
{
    let [maker, device] = word.to_le_bytes();
    if address % 2 == 0 { maker } else { device }
}

// The byte of the memory that the bank shows at an address.
#[tactic(auto, unfolding(crate::specs::Flash::shown_byte))]
pub fn shown_byte(flash: Flash, memory: &[u8], address: u32) -> u8
    requires { 0 < length memory.now }
    ensures { result ≡ shown_byte flash memory.now address }
{
    let at = place(flash, memory.len(), address);
    memory[at]
}
