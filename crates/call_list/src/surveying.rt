// The questions that are asked of a list before it is played.
ghost use Rattle.std.specs.Prelude.{◌≡◌, true, false, ◌≤◌};
ghost use Rattle.lists.specs.Questions.{asked};
ghost use Rattle.refusal.specs.Refusals.{number_of};
ghost use Rattle.call_list.specs.Items.{items, item_room};
ghost use Rattle.call_list.specs.Surveys.{survey_with, left_after, surveyed, surveyed_all};
ghost use Rattle.call_list.specs.ListQuestions.{list_questions};

use crate::items::{ending_room, item_in, item_length, item_room};
use crate::{Item, Survey};
use refusal::Refusal;

// What n bytes more leave of the output, if they fit.
fn left_after(left: Option<usize>, n: usize) -> Option<usize>
    ensures { result ≡ left_after left n }
{
    left?.checked_sub(n)
}

#[tactic(auto, unfolding(crate::specs::Surveys::surveyed))]
fn surveyed(s: Survey, item: Item) -> Survey
    requires { item_room item ≤ 18446744073709551615 }
    ensures { result ≡ surveyed s item }
{
    Survey {
        good: s.good && !matches!(item, Item::Bad),
        writes: s.writes || matches!(item, Item::SaveWrite(_, _)),
        left: left_after(s.left, item_room(item)),
    }
}

// `left` is how many bytes of output there are for the answers.
fn survey(list: &[u8], left: Option<usize>) -> Survey
    ensures { result ≡ surveyed_all (survey_with true false left) (items 0 list.now) }
{
    let mut s = Survey {
        good: true,
        writes: false,
        left,
    };
    let mut rest = list;
    // Kept: an item tells how many bytes it takes, and no iterator steps by that.
    while !rest.is_empty() {
        let item = item_in(rest);
        s = surveyed(s, item);
        rest = &rest[item_length(item)..];
    }
    s
}

// Err is the first question that is answered no.
pub fn ask_list(
    list: &[u8],
    eeprom: bool,
    memory: usize,
    scratch: usize,
    out: usize,
) -> Result<(), Refusal>
    requires { memory ≤ 131072 }
    ensures { number_of result ≡ asked (list_questions (items 0 list.now) eeprom memory scratch out) }
{
    let s = survey(list, out.checked_sub(ending_room(memory)));
    if !s.good {
        return Err(Refusal::NoList);
    }
    if s.writes && eeprom {
        return Err(Refusal::ByteWrite);
    }
    if scratch < memory {
        return Err(Refusal::DestinationLength);
    }
    if s.left.is_none() {
        return Err(Refusal::DestinationLength);
    }
    Ok(())
}
