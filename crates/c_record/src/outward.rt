// What a call changes of a record's bytes, and nothing else: a record that is written whole costs more than most calls.
ghost use Rattle.std.specs.Prelude.{◌≡◌, cond, ◌<◌, get_or, set};
ghost use Rattle.lists.specs.Lists.{bit};
ghost use Rattle.c_record.specs.RecordBytes.{record_size, record_bytes};
ghost use Rattle.c_record.specs.Fields.{with_flash, with_width};
ghost use Rattle.c_record.specs.Fields.{with_acc, with_shift, with_place, with_ended, with_serial};

use crate::layout;
use crate::layout::RecordBytes;
use cart::Cartridge;
use eeprom::Eeprom;
use flash::Flash;

fn flag_after(sets: bool, flag: u8) -> u8
    ensures { result ≡ cond sets 1 flag }
{
    if sets {
        return 1;
    }
    flag
}

// The flash chip but for its ID mode, and the flag. Stored also where they stay: tests in front of the stores cost
// more.
pub fn put_flash(cart: &mut RecordBytes, sets: bool, flash: Flash)
    ensures { cart.new ≡ with_flash cart.old sets flash }
{
    let flag = cart[layout::DIRTY];
    cart[layout::FLASH_STATE] = flash.state;
    cart[layout::BANK] = flash.bank;
    cart[layout::DIRTY] = flag_after(sets, flag);
}

// A flag byte that is stored only where it changes: a store would delay the next call's wide load of it.
pub fn put_bit(cart: &mut RecordBytes, at: usize, was: bool, is: bool)
    requires { (at < record_size) × (get_or cart.old at 0 ≡ bit was) }
    ensures { cart.new ≡ set cart.old at (bit is) }
{
    if was {
        if is {
            return;
        }
        cart[at] = 0;
        return;
    }
    if !is {
        return;
    }
    cart[at] = 1;
}

// What a DMA announcement tells.
pub fn put_width(cart: &mut RecordBytes, width: u8, large: bool)
    ensures { cart.new ≡ with_width cart.old width large }
{
    cart[layout::WIDTH] = width;
    cart[layout::LARGE] = lists::bit(large);
}

fn put_acc(cart: &mut RecordBytes, acc: u64)
    ensures { cart.new ≡ with_acc cart.old acc }
{
    cart[layout::ACC] = (acc % 256) as u8;
    cart[layout::ACC + 1] = ((acc >> 8) % 256) as u8;
    cart[layout::ACC + 2] = ((acc >> 16) % 256) as u8;
    cart[layout::ACC + 3] = ((acc >> 24) % 256) as u8;
    cart[layout::ACC + 4] = ((acc >> 32) % 256) as u8;
    cart[layout::ACC + 5] = ((acc >> 40) % 256) as u8;
    cart[layout::ACC + 6] = ((acc >> 48) % 256) as u8;
    cart[layout::ACC + 7] = ((acc >> 56) % 256) as u8;
}

// A bit shifted in that more follow.
pub fn put_shift(cart: &mut RecordBytes, count: u8, acc: u64)
    ensures { cart.new ≡ with_shift cart.old count acc }
{
    cart[layout::COUNT] = count;
    put_acc(cart, acc);
}

// A bit drawn that more follow.
pub fn put_place(cart: &mut RecordBytes, place: u8)
    ensures { cart.new ≡ with_place cart.old place }
{
    cart[layout::PLACE] = place;
}

// A read is over: phase, count, read place and acc are 0.
pub fn put_ended(cart: &mut RecordBytes)
    ensures { cart.new ≡ with_ended cart.old }
{
    cart[layout::PHASE] = 0;
    cart[layout::COUNT] = 0;
    cart[layout::PLACE] = 0;
    put_acc(cart, 0);
}

// The EEPROM after a bit that ends a phase, and the flag.
pub fn put_eeprom(cart: &mut RecordBytes, sets: bool, e: Eeprom)
    ensures { cart.new ≡ with_serial cart.old sets e }
{
    let phase = e.phase;
    let flag = cart[layout::DIRTY];
    cart[layout::WIDTH] = e.width;
    cart[layout::LARGE] = lists::bit(e.large);
    cart[layout::PHASE] = chip_record::phase_number(phase);
    cart[layout::COUNT] = e.count;
    cart[layout::BLOCK] = (e.block % 256) as u8;
    cart[layout::BLOCK + 1] = (e.block / 256) as u8;
    cart[layout::PLACE] = e.place;
    put_acc(cart, e.acc);
    cart[layout::DIRTY] = flag_after(sets, flag);
}

pub fn record_bytes(cart: Cartridge) -> RecordBytes
    ensures { result ≡ record_bytes cart }
{
    let kind = cart.kind;
    let part = cart.part;
    let chip = cart.chip;
    let b = chip_record::chip_bytes(chip);
    [
        (cart.len % 256) as u8,
        (cart.len / 256 % 256) as u8,
        (cart.len / 65536 % 256) as u8,
        (cart.len / 16777216 % 256) as u8,
        kind::kind_number(kind) as u8,
        lists::bit(cart.dirty),
        b[0],
        b[1],
        b[2],
        b[3],
        b[4],
        b[5],
        b[6],
        b[7],
        b[8],
        b[9],
        b[10],
        b[11],
        b[12],
        b[13],
        b[14],
        b[15],
        b[16],
        b[17],
        part::part_number(part) as u8,
    ]
}
