// A byte read and a byte written, by the kind: the one place in which the kinds are told apart for them.

#![tactic(auto)]

ghost use Rattle.std.specs.Prelude.{◌≡◌, ◌<◌, length};
ghost use Rattle.kind.specs.Kind.{memory_size};
ghost use Rattle.part.specs.Part.{id_word};
ghost use Rattle.flash.specs.Flash.{flash_read, flash_write};
ghost use Rattle.byte_step.specs.ByteStep.{step_to, of_flash, read_byte, write_step};

use flash::{Flash, FlashStep};
use kind::SaveType;
use memory::Store;
use part::Part;

// What a written byte leads to: the flash chip, whether the changed flag is set, and what is to be stored.
#[derive(Clone, Copy)]
pub struct ByteStep {
    pub flash: Flash,
    pub sets: bool,
    pub store: Store,
}

fn read_flash(kind: SaveType, part: Part, flash: Flash, memory: &[u8], address: u32) -> u8
    requires { 0 < length memory.now }
    ensures { result ≡ flash_read (id_word part kind) flash memory.now address }
{
    if flash.id {
        return flash::id_byte(part::id_word(part, kind), address);
    }
    flash::shown_byte(flash, memory, address)
}

#[tactic(auto, unfolding(crate::specs::ByteStep::read_byte))]
pub fn read_byte(kind: SaveType, part: Part, flash: Flash, memory: &[u8], address: u32) -> u8
    requires { length memory.now ≡ memory_size kind }
    ensures { result ≡ read_byte kind part flash memory.now address }
{
    match kind {
        SaveType::None => 0xFF,
        SaveType::Sram => memory[(address % 32768) as usize],
        SaveType::Flash64 | SaveType::Flash128 => read_flash(kind, part, flash, memory, address),
        SaveType::Eeprom512 | SaveType::Eeprom8k => memory[(address % 8192) as usize],
    }
}

fn step_to(flash: Flash, sets: bool, store: Store) -> ByteStep
    ensures { result ≡ step_to flash sets store }
{
    ByteStep { flash, sets, store }
}

fn flash_step(flash: Flash, n: usize, address: u32, value: u8) -> ByteStep
    requires { 0 < n }
    ensures { result ≡ of_flash (flash_write flash n address value) }
{
    let FlashStep { flash, store } = flash::flash_write(flash, n, address, value);
    step_to(flash, memory::stores(store), store)
}

// In a memory of n bytes. The kinds are in groups, of which the compiler makes tests and no jump table.
#[tactic(auto, unfolding(crate::specs::ByteStep::write_step))]
pub fn write_byte(kind: SaveType, flash: Flash, n: usize, address: u32, value: u8) -> ByteStep
    requires { n ≡ memory_size kind }
    ensures { result ≡ write_step kind flash n address value }
{
    match kind {
        SaveType::None => step_to(flash, false, Store::Nothing),
        SaveType::Sram => step_to(flash, true, Store::Byte((address % 32768) as usize, value)),
        SaveType::Flash64 | SaveType::Flash128 => flash_step(flash, n, address, value),
        SaveType::Eeprom512 | SaveType::Eeprom8k => step_to(
            flash,
            false,
            Store::Byte((address % 8192) as usize, value),
        ),
    }
}
