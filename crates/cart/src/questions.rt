// Questions 2, 3 and 16.
ghost use Rattle.std.specs.Prelude.{◌≡◌, [], ◌∷◌};
ghost use Rattle.lists.specs.Questions.{asked};
ghost use Rattle.refusal.specs.Refusals.{number_of};
ghost use Rattle.cart.specs.Record.{record_allowed, record_question, door_number, store_door_number};

use crate::Cartridge;
use refusal::Refusal;

#[tactic(auto, using(lists::proofs::Bools::tests), unfolding(crate::specs::Record::record_allowed))]
pub fn record_allowed(cart: Cartridge) -> bool
    ensures { result ≡ record_allowed cart }
{
    image::image_length(cart.len)
        && part::part_fits(cart.part, cart.kind)
        && chip_record::chip_allowed(cart.chip)
}

// Question 2.
pub fn ask_record(cart: Cartridge) -> Result<(), Refusal>
    ensures { number_of result ≡ asked (record_question cart ∷ []) }
{
    if record_allowed(cart) {
        Ok(())
    } else {
        Err(Refusal::Record)
    }
}

// Questions 2 and 3 of a record with a memory of n bytes.
pub fn door(cart: Cartridge, n: usize) -> Result<(), Refusal>
    ensures { number_of result ≡ door_number cart n }
{
    ask_record(cart)?;
    if n != kind::memory_size(cart.kind) {
        return Err(Refusal::MemoryLength);
    }
    Ok(())
}

// Questions 2, 3 and 16 of a record with a memory of n bytes and k tallies.
pub fn store_door(cart: Cartridge, n: usize, k: usize) -> Result<(), Refusal>
    ensures { number_of result ≡ store_door_number cart n k }
{
    door(cart, n)?;
    if k != kind::tally_count(cart.kind) {
        return Err(Refusal::TallyCount);
    }
    Ok(())
}
