// The calls by value on a whole record: opening, `chip_state`, restore, `take_save_dirty`, the EEPROM questions,
// and what the tallies tell.

#![tactic(auto)]

ghost use Rattle.std.specs.Prelude.{◌≡◌, List, [], ℕ};
ghost use Rattle.lists.specs.Questions.{asked};
ghost use Rattle.refusal.specs.Refusals.{number_of};
ghost use Rattle.image.specs.Image.{answer_of};
ghost use Rattle.kind.specs.declared.SaveType.TheVariants.{None};
ghost use Rattle.part.specs.declared.Part.TheVariants.{Usual};
ghost use Rattle.part.specs.Part.{part_number};
ghost use Rattle.cart.specs.Record.{fresh_cart, from_bytes};
ghost use Rattle.cart.specs.Calls.{chip_state, take_save_dirty, step, restore, uses_eeprom_of, eeprom_window_start};
ghost use Rattle.cart.specs.Calls.{is_blank, in_use, tally_questions};
ghost use Rattle.cart.specs.Replies.{state, reply_from, replied, store_replied, flag_replied};
ghost use Rattle.state_calls.specs.StateAnswer.{state_answer_from, state_answered};

use cart::{Cartridge, Reply};
use chip_record::StateBytes;
use kind::SaveType;
use part::Part;
use refusal::Refusal;

// What a refused opening leaves in place of a record.
pub fn no_cart() -> Cartridge
    ensures { result ≡ fresh_cart 0 None Usual }
{
    cart::fresh_cart(0, SaveType::None, Part::Usual)
}

// Opens an image with the part of a number, erases its memory and sets its tallies to 0.
pub fn from_number(image: &[u8], part: u32, memory: &mut [u8], tallies: &mut [u16]) -> Reply
    ensures { (reply_from (fresh_cart 0 None Usual) result, memory.new, tallies.new)
        ≡ store_replied (from_bytes image.now part memory.old tallies.old) }
{
    image::ask_length(image.len())?;
    let kind = matcher::detect_save_type(image);
    if memory.len() != kind::memory_size(kind) {
        return Err(Refusal::MemoryLength);
    }
    if tallies.len() != kind::tally_count(kind) {
        return Err(Refusal::TallyCount);
    }
    if !part::number_fits(part, kind) {
        return Err(Refusal::Part);
    }
    memory::blank(memory, tallies);
    Ok(cart::done(0, cart::fresh_cart(image.len(), kind, part::part_of(part))))
}

pub fn from_bytes(image: &[u8], part: Part, memory: &mut [u8], tallies: &mut [u16]) -> Reply
    ensures { (reply_from (fresh_cart 0 None Usual) result, memory.new, tallies.new)
        ≡ store_replied (from_bytes image.now (part_number part)
        memory.old tallies.old) }
{
    from_number(image, part::part_number(part) as u32, memory, tallies)
}

// The calls below take no memory; their contracts hold for any memory.
pub fn chip_state(cart: Cartridge) -> Result<StateBytes, Refusal>
    ensures { (m : List ℕ) → (state_answer_from result, state cart m)
        ≡ state_answered (step chip_state [] (state cart m)) }
{
    cart::ask_record(cart)?;
    Ok(chip_record::state_of(cart.chip, cart.dirty))
}

pub fn restore_chip_state(cart: Cartridge, bytes: &[u8]) -> Reply
    ensures { (m : List ℕ) → (reply_from cart result, m) ≡ replied (restore bytes.now (state cart m)) }
{
    cart::ask_record(cart)?;
    chip_record::state_questions(bytes)?;
    let dirty = chip_record::flag_from(bytes, cart.dirty);
    Ok(cart::done(0, cart::cart_with(cart, dirty, chip_record::chip_in(bytes))))
}

pub fn take_save_dirty(cart: Cartridge) -> Reply
    ensures { (m : List ℕ) → (reply_from cart result, m) ≡ flag_replied (step take_save_dirty [] (state cart m)) }
{
    cart::ask_record(cart)?;
    Ok(cart::done(
        u32::from(lists::bit(cart.dirty)),
        cart::cart_with(cart, false, cart.chip),
    ))
}

pub fn uses_eeprom(cart: Cartridge) -> Result<u32, Refusal>
    ensures { answer_of result ≡ uses_eeprom_of cart }
{
    cart::ask_record(cart)?;
    Ok(u32::from(lists::bit(kind::uses_eeprom(cart.kind))))
}

pub fn eeprom_window_start(cart: Cartridge) -> Result<u32, Refusal>
    ensures { answer_of result ≡ eeprom_window_start cart }
{
    cart::ask_record(cart)?;
    Ok(kind::window_start(cart.len))
}

// Questions 2 and 16.
fn ask_tallies(cart: Cartridge, tallies: &[u16]) -> Result<(), Refusal>
    ensures { number_of result ≡ asked (tally_questions cart tallies.now) }
{
    cart::ask_record(cart)?;
    if tallies.len() != kind::tally_count(cart.kind) {
        return Err(Refusal::TallyCount);
    }
    Ok(())
}

// The calls below take no memory: the tallies tell.
pub fn is_blank(cart: Cartridge, tallies: &[u16]) -> Result<u32, Refusal>
    ensures { answer_of result ≡ is_blank cart tallies.now }
{
    ask_tallies(cart, tallies)?;
    Ok(u32::from(lists::bit(counts::is_blank(tallies))))
}

pub fn first_in_use(cart: Cartridge, tallies: &[u16]) -> Result<u32, Refusal>
    ensures { answer_of result ≡ in_use cart tallies.now }
{
    ask_tallies(cart, tallies)?;
    Ok(counts::first_in_use(tallies))
}
