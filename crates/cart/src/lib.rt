// The cartridge: its record, the questions at the door, and in specs/ the machine of document 01.

#![tactic(auto)]

mod questions;

ghost use Rattle.std.specs.Prelude.{◌≡◌};
ghost use Rattle.cart.specs.Record.{fresh_chip, is_large, fresh_cart};
ghost use Rattle.cart.specs.Replies.{accepted_reply, reply_from, done, stored};
ghost use Rattle.cart.specs.Replies.{chip_record, cart_with};

use chip_record::ChipRecord;
use eeprom::{Eeprom, EepromPhase};
use flash::Flash;
use kind::SaveType;
use part::Part;
pub use questions::{ask_record, door, record_allowed, store_door};
use refusal::Refusal;

#[derive(Clone, Copy)]
pub struct Cartridge {
    // the image's length
    pub len: usize,
    pub kind: SaveType,
    // the flash chip that its maker put in
    pub part: Part,
    // the changed flag
    pub dirty: bool,
    pub chip: ChipRecord,
}

// What an accepted call returns: the number that it answers or 0, how many bytes of the memory it changed, and the
// record.
#[derive(Clone, Copy)]
pub struct Accepted {
    pub value: u32,
    pub changed: u32,
    pub cart: Cartridge,
}

// A refused call leaves the record as given.
pub type Reply = Result<Accepted, Refusal>;

// The record after a call that was passed the record `cart`.
pub fn record_after(cart: Cartridge, reply: Reply) -> Cartridge
    ensures { result ≡ (reply_from cart reply).cart }
{
    match reply {
        Ok(accepted) => accepted.cart,
        Err(_) => cart,
    }
}

// The number that a call answers; 0 stands for none.
pub fn value_of(reply: Reply) -> u32
    ensures { (cart : Cartridge) → result ≡ (reply_from cart reply).value }
{
    match reply {
        Ok(accepted) => accepted.value,
        Err(_) => 0,
    }
}

// Of a call that stores nothing.
pub fn done(value: u32, cart: Cartridge) -> Accepted
    ensures { accepted_reply result ≡ done value cart }
{
    Accepted {
        value,
        changed: 0,
        cart,
    }
}

// Of a call that stores.
pub fn stored(changed: u32, cart: Cartridge) -> Accepted
    ensures { accepted_reply result ≡ stored changed cart }
{
    Accepted {
        value: 0,
        changed,
        cart,
    }
}

pub fn cart_with(cart: Cartridge, dirty: bool, chip: ChipRecord) -> Cartridge
    ensures { result ≡ cart_with cart dirty chip }
{
    Cartridge {
        dirty,
        chip,
        ..cart
    }
}

// The record with another flag, and another flash chip or EEPROM.
pub fn with_flash(cart: Cartridge, dirty: bool, flash: Flash) -> Cartridge
    ensures { result ≡ cart_with cart dirty (chip_record flash cart.chip.eeprom) }
{
    cart_with(cart, dirty, ChipRecord { flash, ..cart.chip })
}

pub fn with_eeprom(cart: Cartridge, dirty: bool, eeprom: Eeprom) -> Cartridge
    ensures { result ≡ cart_with cart dirty (chip_record cart.chip.flash eeprom) }
{
    cart_with(
        cart,
        dirty,
        ChipRecord {
            eeprom,
            ..cart.chip
        },
    )
}

fn fresh_chip(large: bool) -> ChipRecord
    ensures { result ≡ fresh_chip large }
{
    ChipRecord {
        flash: Flash {
            state: 0,
            bank: 0,
            id: false,
        },
        eeprom: Eeprom {
            width: 0,
            large,
            phase: EepromPhase::Opcode,
            count: 0,
            block: 0,
            place: 0,
            acc: 0,
        },
    }
}

fn is_large(kind: SaveType) -> bool
    ensures { result ≡ is_large kind }
{
    matches!(kind, SaveType::Eeprom8k)
}

pub fn fresh_cart(len: usize, kind: SaveType, part: Part) -> Cartridge
    ensures { result ≡ fresh_cart len kind part }
{
    Cartridge {
        len,
        kind,
        part,
        dirty: false,
        chip: fresh_chip(is_large(kind)),
    }
}
