// What a record tells in one number: its changed flag, whether its kind has an EEPROM, and where that starts; and what
// its tallies tell.
// Kept: a call answers the number of a refusal, which C is returned.
ghost use Rattle.std.specs.Prelude.{◌≡◌, List, ℕ};
ghost use Rattle.c_record.specs.Calls.{takes_flag, tells_eeprom, tells_window, tells_blank, tells_in_use};

use c_record::{RecordBytes, layout};
use refusal::Refusal;

// Takes no memory; the contract holds for any memory.
pub fn take_save_dirty(cart: &mut RecordBytes, flag: &mut u32) -> u32
    ensures { (m : List ℕ) →
        (result, cart.new, m, flag.new)
        ≡ takes_flag cart.old m flag.old }
{
    if !c_record::is_record(cart) {
        return Refusal::Record as u32;
    }
    *flag = cart[layout::DIRTY] as u32;
    cart[layout::DIRTY] = 0;
    0
}

pub fn uses_eeprom(cart: &RecordBytes, answer: &mut u32) -> u32
    ensures { (result, answer.new) ≡ tells_eeprom cart.now answer.old }
{
    if !c_record::is_record(cart) {
        return Refusal::Record as u32;
    }
    *answer = lists::bit(kind::uses_eeprom(c_record::kind_in(cart))) as u32;
    0
}

pub fn eeprom_window_start(cart: &RecordBytes, start: &mut u32) -> u32
    ensures { (result, start.new) ≡ tells_window cart.now start.old }
{
    if !c_record::is_record(cart) {
        return Refusal::Record as u32;
    }
    *start = kind::window_start(c_record::len_in(cart));
    0
}

pub fn is_blank(cart: &RecordBytes, tallies: &[u16], blank: &mut u32) -> u32
    ensures { (result, blank.new)
        ≡ tells_blank cart.now tallies.now blank.old }
{
    if !c_record::is_record(cart) {
        return Refusal::Record as u32;
    }
    if tallies.len() != kind::tally_count(c_record::kind_in(cart)) {
        return Refusal::TallyCount as u32;
    }
    *blank = lists::bit(counts::is_blank(tallies)) as u32;
    0
}

pub fn first_in_use(cart: &RecordBytes, tallies: &[u16], stretch: &mut u32) -> u32
    ensures { (result, stretch.new)
        ≡ tells_in_use cart.now tallies.now stretch.old }
{
    if !c_record::is_record(cart) {
        return Refusal::Record as u32;
    }
    if tallies.len() != kind::tally_count(c_record::kind_in(cart)) {
        return Refusal::TallyCount as u32;
    }
    *stretch = counts::first_in_use(tallies);
    0
}
