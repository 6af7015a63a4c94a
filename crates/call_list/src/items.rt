// The item at the front of an encoded list, how many bytes it takes there, and how many its answer takes.
ghost use Rattle.std.specs.Prelude.{◌≡◌, ◌+◌, ◌≤◌, ◌<◌, length};
ghost use Rattle.call_list.specs.declared.Item.TheVariants.{LoadSave};
ghost use Rattle.call_list.specs.Items.{within, item_in};
ghost use Rattle.call_list.specs.Items.{item_length, item_room, ending_room};

use crate::Item;
use chip_record::STATE_SIZE;

// A file of n bytes, all of which follow.
fn load(n: usize, file: &[u8]) -> Item
    ensures { result ≡ within n file.now (LoadSave n) }
{
    if file.len() < n {
        return Item::Bad;
    }
    Item::LoadSave(n)
}

#[tactic(auto, using(lists::proofs::Bools::tests), unfolding(crate::specs::Items::item_in))]
pub fn item_in(l: &[u8]) -> Item
    requires { 0 < length l.now }
    ensures value { result ≡ item_in l.now }
    ensures result_in_bounds { (item_length result ≤ length l.now) × (item_room result ≤ 4294967300) }
{
    match (l[0], l) {
        (1, &[_, b3, b2, b1, b0, ..]) => Item::SaveRead(lists::low32(b0, b1, b2, b3)),
        (2, &[_, b3, b2, b1, b0, value, ..]) => Item::SaveWrite(
            lists::low32(b0, b1, b2, b3),
            value,
        ),
        (3, _) => Item::EepromRead,
        (4, &[_, b1, b0, ..]) => Item::EepromWrite(lists::low16(b0, b1)),
        (5, &[_, b1, b0, ..]) => Item::BeginDma(lists::low16(b0, b1)),
        (6, _) => Item::TakeFlag,
        (7, _) => Item::ChipState,
        (8, &[_, b3, b2, b1, b0, ref file @ ..]) => load(
            lists::low32(b0, b1, b2, b3) as usize,
            file,
        ),
        (9, &[_, b3, b2, b1, b0, ..]) => Item::SaveData(lists::low32(b0, b1, b2, b3) as usize),
        (10, _) => Item::Cut,
        _ => Item::Bad,
    }
}

pub fn item_length(item: Item) -> usize
    requires { item_length item ≤ 18446744073709551615 }
    ensures { result ≡ item_length item }
{
    match item {
        Item::SaveRead(_) => 5,
        Item::SaveWrite(_, _) => 6,
        Item::EepromRead => 1,
        Item::EepromWrite(_) => 3,
        Item::BeginDma(_) => 3,
        Item::TakeFlag => 1,
        Item::ChipState => 1,
        Item::LoadSave(n) => 5 + n,
        Item::SaveData(_) => 5,
        Item::Cut => 1,
        Item::Bad => 1,
    }
}

pub fn item_room(item: Item) -> usize
    requires { item_room item ≤ 18446744073709551615 }
    ensures { result ≡ item_room item }
{
    match item {
        Item::SaveRead(_) => 2,
        Item::SaveWrite(_, _) => 1,
        Item::EepromRead => 2,
        Item::EepromWrite(_) => 1,
        Item::BeginDma(_) => 1,
        Item::TakeFlag => 2,
        Item::ChipState => 1 + STATE_SIZE,
        Item::LoadSave(_) => 1,
        Item::SaveData(n) => 5 + n,
        Item::Cut => 0,
        Item::Bad => 0,
    }
}

// After the last item's answer: an export into as many bytes as the memory has, and `chip_state`.
pub fn ending_room(memory: usize) -> usize
    requires { memory ≤ 131072 }
    ensures { result ≡ ending_room memory }
{
    item_room(Item::SaveData(memory)) + item_room(Item::ChipState)
}
