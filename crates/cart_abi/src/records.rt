// The calls on a record.
ghost use Rattle.std.specs.Prelude.{◌≡◌, List, ℕ};
ghost use Rattle.c_record.specs.Calls.{opens, reads, writes, announces, takes_bit, gives_bit, loads, exports, imports};
ghost use Rattle.c_record.specs.Calls.{gives_state, restores, takes_flag, tells_eeprom, tells_window};
ghost use Rattle.c_record.specs.Calls.{tells_blank, tells_in_use};

use c_record::RecordBytes;
use chip_record::StateBytes;

pub fn gbasave_save_read(cart: &RecordBytes, memory: &[u8], address: u32, value: &mut u32) -> u32
    ensures { (result, cart.now, memory.now, value.new)
        ≡ reads address cart.now memory.now value.old }
{
    c_byte_calls::save_read(cart, memory, address, value)
}

pub fn gbasave_save_write(
    cart: &mut RecordBytes,
    memory: &mut [u8],
    tallies: &mut [u16],
    address: u32,
    value: u8,
    changed: &mut u32,
) -> u32
    ensures { (result, cart.new, memory.new, tallies.new, changed.new)
        ≡ writes address value cart.old memory.old
        tallies.old changed.old }
{
    c_byte_calls::save_write(cart, memory, tallies, address, value, changed)
}

pub fn gbasave_eeprom_begin_dma(cart: &mut RecordBytes, words: u32) -> u32
    ensures { (m : List ℕ) → (result, cart.new, m) ≡ announces words cart.old m }
{
    c_serial_calls::eeprom_begin_dma(cart, words)
}

pub fn gbasave_eeprom_write(
    cart: &mut RecordBytes,
    memory: &mut [u8],
    tallies: &mut [u16],
    value: u16,
    changed: &mut u32,
) -> u32
    ensures { (result, cart.new, memory.new, tallies.new, changed.new)
        ≡ takes_bit value cart.old memory.old
        tallies.old changed.old }
{
    c_serial_calls::eeprom_write(cart, memory, tallies, value, changed)
}

pub fn gbasave_eeprom_read(cart: &mut RecordBytes, memory: &[u8], bit: &mut u32) -> u32
    ensures { (result, cart.new, memory.now, bit.new)
        ≡ gives_bit cart.old memory.now bit.old }
{
    c_serial_calls::eeprom_read(cart, memory, bit)
}

pub fn gbasave_load_save(
    cart: &mut RecordBytes,
    memory: &mut [u8],
    tallies: &mut [u16],
    file: &[u8],
    changed: &mut u32,
) -> u32
    ensures { (result, cart.new, memory.new, tallies.new, changed.new)
        ≡ loads file.now cart.old memory.old
        tallies.old changed.old }
{
    c_file_calls::load_save(cart, memory, tallies, file, changed)
}

// Kind None has no file: the length is then 0.
pub fn gbasave_save_data(
    cart: &RecordBytes,
    memory: &[u8],
    destination: &mut [u8],
    length: &mut u32,
) -> u32
    ensures { (result, cart.now, memory.now, destination.new, length.new)
        ≡ exports destination.old cart.now memory.now length.old }
{
    c_file_calls::save_data(cart, memory, destination, length)
}

pub fn gbasave_import_save(
    cart: &mut RecordBytes,
    memory: &mut [u8],
    tallies: &mut [u16],
    file: &[u8],
    kept: &mut u32,
    changed: &mut u32,
) -> u32
    ensures { (
      result,
      cart.new,
      memory.new,
      tallies.new,
      kept.new,
      changed.new,
    )
        ≡ imports file.now cart.old memory.old tallies.old
        kept.old changed.old }
{
    c_file_calls::import_save(cart, memory, tallies, file, kept, changed)
}

pub fn gbasave_from_bytes(
    cart: &mut RecordBytes,
    image: &[u8],
    part: u32,
    memory: &mut [u8],
    tallies: &mut [u16],
) -> u32
    ensures { (result, cart.new, memory.new, tallies.new)
        ≡ opens image.now part memory.old tallies.old }
{
    c_state_calls::from_bytes(cart, image, part, memory, tallies)
}

pub fn gbasave_chip_state(cart: &RecordBytes, bytes: &mut StateBytes) -> u32
    ensures { (m : List ℕ)
        → (result, cart.now, m, bytes.new)
        ≡ gives_state cart.now m bytes.old }
{
    c_state_calls::chip_state(cart, bytes)
}

pub fn gbasave_restore_chip_state(cart: &mut RecordBytes, bytes: &[u8]) -> u32
    ensures { (m : List ℕ) → (result, cart.new, m) ≡ restores bytes.now cart.old m }
{
    c_state_calls::restore_chip_state(cart, bytes)
}

pub fn gbasave_take_save_dirty(cart: &mut RecordBytes, flag: &mut u32) -> u32
    ensures { (m : List ℕ)
        → (result, cart.new, m, flag.new) ≡ takes_flag cart.old m flag.old }
{
    c_state_calls::take_save_dirty(cart, flag)
}

pub fn gbasave_uses_eeprom(cart: &RecordBytes, answer: &mut u32) -> u32
    ensures { (result, answer.new) ≡ tells_eeprom cart.now answer.old }
{
    c_state_calls::uses_eeprom(cart, answer)
}

pub fn gbasave_eeprom_window_start(cart: &RecordBytes, start: &mut u32) -> u32
    ensures { (result, start.new) ≡ tells_window cart.now start.old }
{
    c_state_calls::eeprom_window_start(cart, start)
}

pub fn gbasave_is_blank(cart: &RecordBytes, tallies: &[u16], blank: &mut u32) -> u32
    ensures { (result, blank.new)
        ≡ tells_blank cart.now tallies.now blank.old }
{
    c_state_calls::is_blank(cart, tallies, blank)
}

pub fn gbasave_first_in_use(cart: &RecordBytes, tallies: &[u16], stretch: &mut u32) -> u32
    ensures { (result, stretch.new)
        ≡ tells_in_use cart.now tallies.now stretch.old }
{
    c_state_calls::first_in_use(cart, tallies, stretch)
}
