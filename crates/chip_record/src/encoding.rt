// The chip record as bytes, and which are allowed.
ghost use Rattle.std.specs.Prelude.{◌≡◌, ◌&&◌, leb, length, drop};
ghost use Rattle.lists.specs.Lists.{low_value};
ghost use Rattle.lists.specs.Questions.{asked};
ghost use Rattle.chip_record.specs.ChipState.{chip_record_size, phase_number, phase_of, chip_bytes, chip_of};
ghost use Rattle.refusal.specs.Refusals.{number_of};
ghost use Rattle.chip_record.specs.ChipState.{field_questions, chip_allowed};

use crate::layout::ChipBytes;
use crate::{ChipRecord, layout};
use eeprom::{Eeprom, EepromPhase};
use flash::Flash;
use refusal::Refusal;

pub fn phase_number(phase: EepromPhase) -> u8
    ensures { result ≡ phase_number phase }
{
    phase as u8
}

// Kept: total, as `chip_of` of any bytes is; no number above 6 comes past question 7.
fn phase_of(n: u8) -> EepromPhase
    ensures { result ≡ phase_of n }
{
    match n {
        0 => EepromPhase::Opcode,
        1 => EepromPhase::ReadAddress,
        2 => EepromPhase::WriteAddress,
        3 => EepromPhase::WriteData,
        4 => EepromPhase::ReadStop,
        5 => EepromPhase::WriteStop,
        _ => EepromPhase::Reading,
    }
}

pub fn chip_bytes(chip: ChipRecord) -> ChipBytes
    ensures { result ≡ chip_bytes chip }
{
    let flash = chip.flash;
    let e = chip.eeprom;
    [
        flash.state,
        flash.bank,
        lists::bit(flash.id),
        e.width,
        lists::bit(e.large),
        phase_number(e.phase),
        e.count,
        (e.block % 256) as u8,
        (e.block / 256) as u8,
        e.place,
        (e.acc % 256) as u8,
        ((e.acc >> 8) % 256) as u8,
        ((e.acc >> 16) % 256) as u8,
        ((e.acc >> 24) % 256) as u8,
        ((e.acc >> 32) % 256) as u8,
        ((e.acc >> 40) % 256) as u8,
        ((e.acc >> 48) % 256) as u8,
        ((e.acc >> 56) % 256) as u8,
    ]
}

// Bytes 10 to 17, low byte first.
fn acc_of(b: &[u8]) -> u64
    requires { length b.now ≡ chip_record_size }
    ensures { result ≡ low_value (drop 10 b.now) }
{
    lists::low64(
        lists::low32(
            b[layout::ACC],
            b[layout::ACC + 1],
            b[layout::ACC + 2],
            b[layout::ACC + 3],
        ),
        lists::low32(
            b[layout::ACC + 4],
            b[layout::ACC + 5],
            b[layout::ACC + 6],
            b[layout::ACC + 7],
        ),
    )
}

// Decodes the bytes of a valid chip record.
pub fn chip_of(b: &[u8]) -> ChipRecord
    requires { length b.now ≡ chip_record_size }
    ensures { result ≡ chip_of b.now }
{
    ChipRecord {
        flash: Flash {
            state: b[layout::FLASH_STATE],
            bank: b[layout::BANK],
            id: b[layout::ID_MODE] == 1,
        },
        eeprom: Eeprom {
            width: b[layout::WIDTH],
            large: b[layout::LARGE] == 1,
            phase: phase_of(b[layout::PHASE]),
            count: b[layout::COUNT],
            block: lists::low16(b[layout::BLOCK], b[layout::BLOCK + 1]),
            place: b[layout::PLACE],
            acc: acc_of(b),
        },
    }
}

// Questions 7 to 12, about the fields, in this order. A count that its phase allows is below 64:
// so the limit is asked first, and the bound of 64 only of a count that is refused.
pub fn field_questions(b: &[u8]) -> Result<(), Refusal>
    requires { length b.now ≡ chip_record_size }
    ensures { number_of result ≡ asked (field_questions b.now) }
{
    if 6 < b[layout::PHASE] {
        return Err(Refusal::StatePhase);
    }
    if !flash::state_allowed(b[layout::FLASH_STATE]) {
        return Err(Refusal::StateFlash);
    }
    if !flags_allowed(b[layout::BANK], b[layout::ID_MODE], b[layout::LARGE]) {
        return Err(Refusal::StateSwitches);
    }
    if !eeprom::width_allowed(b[layout::WIDTH]) {
        return Err(Refusal::StateWidth);
    }
    if !places_allowed(
        lists::low16(b[layout::BLOCK], b[layout::BLOCK + 1]),
        b[layout::PLACE],
    ) {
        return Err(Refusal::StateRanges);
    }
    if b[layout::COUNT]
        < eeprom::count_limit(
            phase_of(b[layout::PHASE]),
            eeprom::w(b[layout::WIDTH], b[layout::LARGE] == 1),
        )
    {
        return Ok(());
    }
    if 64 < b[layout::COUNT] {
        return Err(Refusal::StateRanges);
    }
    Err(Refusal::StateCount)
}

#[tactic(auto, using(lists::proofs::Bools::tests))]
fn flags_allowed(bank: u8, id: u8, large: u8) -> bool
    ensures { result ≡ (leb bank 1 && leb id 1 && leb large 1) }
{
    bank <= 1 && id <= 1 && large <= 1
}

#[tactic(auto, using(lists::proofs::Bools::tests))]
fn places_allowed(block: u16, place: u8) -> bool
    ensures { result ≡ (leb block 1023 && leb place 67) }
{
    block <= 1023 && place <= 67
}

// Question 2, of a chip record: whether its bytes would be allowed.
pub fn chip_allowed(chip: ChipRecord) -> bool
    ensures { result ≡ chip_allowed chip }
{
    let flash = chip.flash;
    let e = chip.eeprom;
    if !flash::state_allowed(flash.state) {
        return false;
    }
    if 1 < flash.bank {
        return false;
    }
    if !eeprom::width_allowed(e.width) {
        return false;
    }
    if 1023 < e.block {
        return false;
    }
    if 67 < e.place {
        return false;
    }
    e.count < eeprom::count_limit(e.phase, eeprom::w(e.width, e.large))
}
