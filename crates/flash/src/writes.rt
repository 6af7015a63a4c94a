// Bytes written to the chip: commands, and what they end in.
ghost use Rattle.std.specs.Prelude.{◌≡◌, ◌<◌};
ghost use Rattle.flash.specs.Flash.{to, storing, unlock};
ghost use Rattle.flash.specs.Flash.{command, erase, flash_write};

use crate::{Flash, FlashStep, place};
use memory::Store;

// The bytes of a command.
const UNLOCK_FIRST: u8 = 0xAA;

const UNLOCK_SECOND: u8 = 0x55;

const ENTER_ID: u8 = 0x90;

const LEAVE_ID: u8 = 0xF0;

const PROGRAM: u8 = 0xA0;

const SELECT_BANK: u8 = 0xB0;

const ERASE: u8 = 0x80;

const ERASE_SECTOR: u8 = 0x30;

const ERASE_CHIP: u8 = 0x10;

fn to(flash: Flash, state: u8) -> FlashStep
    ensures { result ≡ to flash state }
{
    FlashStep {
        flash: Flash { state, ..flash },
        store: Store::Nothing,
    }
}

fn storing(flash: Flash, store: Store) -> FlashStep
    ensures { result ≡ storing flash store }
{
    FlashStep {
        flash: Flash { state: 0, ..flash },
        store,
    }
}

#[tactic(auto, using(lists::proofs::Bools::tests), unfolding(crate::specs::Flash::unlock))]
fn unlock(flash: Flash, value: u8, wanted: u8, next: u8) -> FlashStep
    ensures { result ≡ unlock flash value wanted next }
{
    if value == wanted {
        return to(flash, next);
    }
    to(flash, 0)
}

#[tactic(auto, using(lists::proofs::Bools::tests), unfolding(crate::specs::Flash::command))]
fn command(flash: Flash, value: u8) -> FlashStep
    ensures { result ≡ command flash value }
{
    match value {
        ENTER_ID => to(Flash { id: true, ..flash }, 0),
        LEAVE_ID => to(Flash { id: false, ..flash }, 0),
        PROGRAM => to(flash, 4),
        SELECT_BANK => to(flash, 5),
        ERASE => to(flash, 6),
        _ => to(flash, 0),
    }
}

#[tactic(auto, using(lists::proofs::Bools::tests), unfolding(crate::specs::Flash::erase))]
fn erase(flash: Flash, at: usize, value: u8) -> FlashStep
    ensures { result ≡ erase flash at value }
{
    match value {
        ERASE_SECTOR => storing(flash, Store::Sector(at)),
        ERASE_CHIP => storing(flash, Store::Chip),
        _ => to(flash, 0),
    }
}

// A byte written to a chip whose memory has n bytes. In halves: of one match the compiler makes a jump table.
#[tactic(auto, using(lists::proofs::Bools::tests), unfolding(crate::specs::Flash::flash_write))]
pub fn flash_write(flash: Flash, n: usize, address: u32, value: u8) -> FlashStep
    requires { 0 < n }
    ensures { result ≡ flash_write flash n address value }
{
    let state = flash.state;
    if state < 3 {
        if state == 0 {
            return unlock(flash, value, UNLOCK_FIRST, 1);
        }
        if state == 1 {
            return unlock(flash, value, UNLOCK_SECOND, 2);
        }
        return command(flash, value);
    }
    if state < 6 {
        if state == 4 {
            return storing(flash, Store::Byte(place(flash, n, address), value));
        }
        if state == 5 {
            return to(
                Flash {
                    bank: value % 2,
                    ..flash
                },
                0,
            );
        }
        return to(flash, 0);
    }
    if state == 6 {
        return unlock(flash, value, UNLOCK_FIRST, 7);
    }
    if state == 7 {
        return unlock(flash, value, UNLOCK_SECOND, 8);
    }
    if state == 8 {
        return erase(flash, place(flash, n, address), value);
    }
    to(flash, 0)
}
