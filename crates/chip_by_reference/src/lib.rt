// The serial bit in on a chip record apart from the cartridge record: by value, and by `&mut`.

#![tactic(auto)]

ghost use Rattle.std.specs.Prelude.{◌≡◌};
ghost use Rattle.chip_by_reference.specs.Lent.{plain_call, apart, lent_from};

use cart::Cartridge;
use chip_record::ChipRecord;
use kind::SaveType;
use part::Part;
use refusal::Refusal;

// What of a cartridge record is apart from its chip record.
#[derive(Clone, Copy)]
pub struct Rest {
    pub len: usize,
    pub kind: SaveType,
    pub part: Part,
    pub dirty: bool,
}

// Of an accepted call: how many bytes of the memory changed, and the changed flag after it.
#[derive(Clone, Copy)]
pub struct Lent {
    pub changed: u32,
    pub dirty: bool,
}

// The chip record after the call; a refused call leaves it.
#[derive(Clone, Copy)]
pub struct ChipReply {
    pub chip: ChipRecord,
    pub reply: Result<Lent, Refusal>,
}

// Calls `eeprom_write` on the cartridge record of these fields.
pub fn eeprom_write_chip(
    chip: ChipRecord,
    rest: Rest,
    memory: &mut [u8],
    tallies: &mut [u16],
    value: u16,
) -> ChipReply
    ensures { (lent_from rest.dirty result.reply, result.chip, memory.new, tallies.new)
        ≡ apart (plain_call rest.len rest.kind rest.part rest.dirty chip
        memory.old tallies.old value) }
{
    let cart = Cartridge {
        len: rest.len,
        kind: rest.kind,
        part: rest.part,
        dirty: rest.dirty,
        chip,
    };
    match serial_calls::eeprom_write(cart, memory, tallies, value) {
        Ok(accepted) => ChipReply {
            chip: accepted.cart.chip,
            reply: Ok(Lent {
                changed: accepted.changed,
                dirty: accepted.cart.dirty,
            }),
        },
        Err(refusal) => ChipReply {
            chip,
            reply: Err(refusal),
        },
    }
}

// The thin call: copies the chip record out, steps it and writes it back. A refused call leaves it unchanged.
pub fn eeprom_write_lent(
    chip: &mut ChipRecord,
    rest: Rest,
    memory: &mut [u8],
    tallies: &mut [u16],
    value: u16,
) -> Result<Lent, Refusal>
    ensures { (lent_from rest.dirty result, chip.new, memory.new, tallies.new)
        ≡ apart (plain_call rest.len rest.kind rest.part rest.dirty chip.old
        memory.old tallies.old value) }
{
    let next = eeprom_write_chip(*chip, rest, memory, tallies, value);
    *chip = next.chip;
    next.reply
}

// The same by a loan: the thin call on a copy of the chip record.
pub fn eeprom_write_copy(
    chip: ChipRecord,
    rest: Rest,
    memory: &mut [u8],
    tallies: &mut [u16],
    value: u16,
) -> ChipReply
    ensures { (lent_from rest.dirty result.reply, result.chip, memory.new, tallies.new)
        ≡ apart (plain_call rest.len rest.kind rest.part rest.dirty chip
        memory.old tallies.old value) }
{
    let mut copy = chip;
    let reply = eeprom_write_lent(&mut copy, rest, memory, tallies, value);
    ChipReply { chip: copy, reply }
}
