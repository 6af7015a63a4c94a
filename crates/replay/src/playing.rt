// An item, played as its call.
ghost use Rattle.std.specs.Prelude.{◌≡◌, true, ◌≤◌, length};
ghost use Rattle.kind.specs.Kind.{memory_size};
ghost use Rattle.cart.specs.Record.{record_allowed};
ghost use Rattle.cart.specs.Replies.{tallied, reply_from};
ghost use Rattle.call_list.specs.Items.{item_length, item_room};
ghost use Rattle.replay.specs.Replay.{status_shown, value_shown, play, left, cut_at};

use crate::answers::{put_file, put_state, put_status, put_value};
use call_list::Item;
use cart::{Cartridge, Reply};

fn show_status(cart: Cartridge, reply: Reply, out: &mut [u8]) -> Cartridge
    requires { length out.old ≡ 1 }
    ensures { (result, out.new) ≡ status_shown (reply_from cart reply) }
{
    put_status(out, reply);
    cart::record_after(cart, reply)
}

fn show_value(cart: Cartridge, reply: Reply, out: &mut [u8]) -> Cartridge
    requires { length out.old ≡ 2 }
    ensures { (result, out.new) ≡ value_shown (reply_from cart reply) }
{
    put_value(out, reply);
    cart::record_after(cart, reply)
}

// The bytes of the item begin the list.
pub fn play(
    item: Item,
    list: &[u8],
    image: &[u8],
    part: u32,
    cart: Cartridge,
    memory: &mut [u8],
    tallies: &mut [u16],
    scratch: &mut [u8],
    out: &mut [u8],
) -> Cartridge
    requires item_in_bounds { item_length item ≤ length list.now }
    requires out_len { length out.old ≡ item_room item }
    requires cart_value { record_allowed cart ≡ true }
    requires memory_len { length memory.old ≡ memory_size cart.kind }
    requires memory_in_bounds { length memory.old ≤ length scratch.old }
    ensures { (tallied result memory.new tallies.new, out.new)
        ≡ left (play (cut_at image.now part) item list.now
        (tallied cart memory.old tallies.old)) }
{
    match item {
        Item::SaveRead(address) => {
            show_value(cart, byte_calls::save_read(cart, memory, address), out)
        }
        Item::SaveWrite(address, value) => show_status(
            cart,
            byte_calls::save_write(cart, memory, tallies, address, value),
            out,
        ),
        Item::EepromRead => show_value(cart, serial_calls::eeprom_read(cart, memory), out),
        Item::EepromWrite(value) => show_status(
            cart,
            serial_calls::eeprom_write(cart, memory, tallies, value),
            out,
        ),
        Item::BeginDma(words) => show_status(
            cart,
            serial_calls::eeprom_begin_dma(cart, usize::from(words)),
            out,
        ),
        Item::TakeFlag => show_value(cart, state_calls::take_save_dirty(cart), out),
        Item::ChipState => {
            put_state(out, state_calls::chip_state(cart));
            cart
        }
        Item::LoadSave(n) => show_status(
            cart,
            file_calls::load_save(cart, memory, tallies, &list[5..5 + n]),
            out,
        ),
        Item::SaveData(_) => {
            put_file(cart, memory, out);
            cart
        }
        Item::Cut => cut_call::cut(image, part, cart, memory, tallies, scratch),
        Item::Bad => cart,
    }
}
