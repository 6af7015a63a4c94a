// The list, item by item.
ghost use Rattle.std.specs.Prelude.{◌≡◌, false, ◌&&◌, ◌+◌, ◌≤◌, length};
ghost use Rattle.lists.specs.Questions.{asked};
ghost use Rattle.kind.specs.Kind.{uses_eeprom, detect_save_type};
ghost use Rattle.part.specs.Part.{part_of};
ghost use Rattle.cart.specs.Record.{open_questions, fresh as fresh_def};
ghost use Rattle.cart.specs.Replies.{state, tallied};
ghost use Rattle.call_list.specs.Items.{ending_room, items, byte_writes, room};
ghost use Rattle.replay.specs.Replay.{ending, uncut_run, shown_by};

use crate::answers::{put_file, put_state};
use crate::playing::play;
use cart::Cartridge;

// What is answered after the last item.
fn end_with(cart: Cartridge, memory: &[u8], out: &mut [u8])
    requires { length out.old ≡ ending_room (length memory.now) }
    ensures { out.new ≡ ending (state cart memory.now) }
{
    let middle = 5 + memory.len();
    put_file(cart, memory, &mut out[..middle]);
    put_state(&mut out[middle..], state_calls::chip_state(cart));
}

fn run(
    image: &[u8],
    part: u32,
    list: &[u8],
    fresh: Cartridge,
    memory: &mut [u8],
    tallies: &mut [u16],
    scratch: &mut [u8],
    out: &mut [u8],
)
    requires tallies_value { asked (open_questions image.now part memory.old tallies.old) ≡ 0 }
    requires tallies_value_2 { tallied fresh memory.old tallies.old ≡ fresh_def image.now (part_of part) }
    requires image_value { (byte_writes (items 0 list.now) && uses_eeprom (detect_save_type image.now)) ≡ false }
    requires memory_in_bounds { length memory.old ≤ length scratch.old }
    requires memory_in_bounds_2 { room (items 0 list.now) + ending_room (length memory.old) ≤ length out.old }
    ensures { (memory.new, out.new)
        ≡ shown_by (uncut_run (items 0 list.now) (fresh_def image.now (part_of part)))
        out.old }
{
    let mut cart = fresh;
    let mut at = 0;
    let mut i = 0;
    // Kept: only the item at a place tells where the next one and its answer begin, so no iterator has the places.
    while i < list.len() {
        let item = call_list::item_in(&list[i..]);
        let end = at + call_list::item_room(item);
        cart = play(
            item,
            &list[i..],
            image,
            part,
            cart,
            memory,
            tallies,
            scratch,
            &mut out[at..end],
        );
        at = end;
        i += call_list::item_length(item);
    }
    let end = at + call_list::ending_room(memory.len());
    end_with(cart, memory, &mut out[at..end]);
}

// An accepted replay, with tallies as many as the kind has.
pub fn open_and_run(
    image: &[u8],
    part: u32,
    list: &[u8],
    memory: &mut [u8],
    tallies: &mut [u16],
    scratch: &mut [u8],
    out: &mut [u8],
)
    requires tallies_value { asked (open_questions image.now part memory.old tallies.old) ≡ 0 }
    requires image_value { (byte_writes (items 0 list.now) && uses_eeprom (detect_save_type image.now)) ≡ false }
    requires memory_in_bounds { length memory.old ≤ length scratch.old }
    requires memory_in_bounds_2 { room (items 0 list.now) + ending_room (length memory.old) ≤ length out.old }
    ensures { (memory.new, out.new)
        ≡ shown_by (uncut_run (items 0 list.now) (fresh_def image.now (part_of part)))
        out.old }
{
    let opened = state_calls::from_number(image, part, memory, tallies);
    let cart = cart::record_after(state_calls::no_cart(), opened);
    run(image, part, list, cart, memory, tallies, scratch, out);
}
