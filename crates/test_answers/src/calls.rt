// Makes the call of a frame and prints its answer at the front of `out`. A text that is not a frame has no answer, and
// changes nothing.

use crate::Output;
use crate::digits::decode;
use crate::images::image_answer;
use crate::kinds::{fit, kind_of, size};
use crate::made::make_file;
use cart::{Cartridge, Reply};
use carttrace_lib::Played;
use chip_by_reference::Rest;
use chip_record::CHIP_SIZE;
use frames::{Frame, Line};
use kind::SaveType;
use part::Part;

fn status(cart: Cartridge, reply: Reply, out: &mut Output) -> Played {
    match reply {
        Ok(accepted) => Played {
            cart: accepted.cart,
            len: frames::print_line(out, 0, b""),
        },
        Err(refusal) => Played {
            cart,
            len: frames::print_line(out, refusal.number(), b""),
        },
    }
}

fn line_of(frame: &[u8]) -> Line {
    let mut line = frames::empty_line();
    for c in frame {
        line = frames::push(line, *c);
    }
    line
}

// 04: the serial bit in by the thin call, on a chip record passed by reference.
fn bit_in(
    value: u16,
    cart: Cartridge,
    memory: &mut [u8],
    tallies: &mut [u16],
    out: &mut Output,
) -> Played {
    let rest = Rest {
        len: cart.len,
        kind: cart.kind,
        part: cart.part,
        dirty: cart.dirty,
    };
    let after = chip_by_reference::eeprom_write_copy(cart.chip, rest, memory, tallies, value);
    match after.reply {
        Ok(lent) => Played {
            cart: cart::cart_with(cart, lent.dirty, after.chip),
            len: frames::print_line(out, 0, b""),
        },
        Err(refusal) => Played {
            cart: cart::cart_with(cart, cart.dirty, after.chip),
            len: frames::print_line(out, refusal.number(), b""),
        },
    }
}

// 01 to 07.
fn trace_frame(
    text: &[u8],
    cart: Cartridge,
    memory: &mut [u8],
    tallies: &mut [u16],
    out: &mut Output,
) -> Option<Played> {
    match frames::frame_in(line_of(text)) {
        Frame::Bad => None,
        Frame::EepromWrite(value) => Some(bit_in(value, cart, memory, tallies, out)),
        frame => Some(carttrace_lib::play(frame, cart, memory, tallies, out)),
    }
}

// 08 length (6) seed (2).
fn load(
    len: u32,
    seed: u8,
    cart: Cartridge,
    memory: &mut [u8],
    tallies: &mut [u16],
    out: &mut Output,
) -> Option<Played> {
    let mut room = [0; 131328];
    let file = room.get_mut(..len as usize)?;
    make_file(file, seed);
    let reply = file_calls::load_save(cart, memory, tallies, file);
    Some(status(cart, reply, out))
}

// The length and the CRC of a file in a room.
fn print_file(room: &[u8], len: u32, out: &mut Output) -> usize {
    let file = &room[..(len as usize).min(room.len())];
    let mut answer = [0; 8];
    answer[..4].copy_from_slice(&len.to_be_bytes());
    answer[4..].copy_from_slice(&crc::crc32(file).to_be_bytes());
    frames::print_line(out, 0, &answer[1..])
}

// 09.
fn export(cart: Cartridge, memory: &[u8], out: &mut Output) -> Played {
    let mut room = [0; 131328];
    match file_calls::save_data(cart, memory, &mut room) {
        Ok(accepted) => Played {
            cart,
            len: print_file(&room, accepted.value, out),
        },
        Err(refusal) => Played {
            cart,
            len: frames::print_line(out, refusal.number(), b""),
        },
    }
}

// 0B kind (2) image length (8).
fn fresh(
    kind: SaveType,
    len: u32,
    cart: Cartridge,
    memory: &mut [u8],
    tallies: &mut [u16],
    out: &mut Output,
) -> Played {
    if let Err(refusal) = image::ask_length(len as usize) {
        return Played {
            cart,
            len: frames::print_line(out, refusal.number(), b""),
        };
    }
    let n = kind::memory_size(kind).min(memory.len());
    let k = kind::tally_count(kind).min(tallies.len());
    memory::blank(&mut memory[..n], &mut tallies[..k]);
    Played {
        cart: cart::fresh_cart(len as usize, kind, Part::Usual),
        len: frames::print_line(out, 0, b""),
    }
}

// A frame as text and as bytes, with memory and tallies of the record's kind.
fn frame_answer(
    text: &[u8],
    frame: &[u8],
    cart: Cartridge,
    memory: &mut [u8],
    tallies: &mut [u16],
    out: &mut Output,
) -> Option<Played> {
    match frame {
        [0x01..=0x07, ..] => trace_frame(text, cart, memory, tallies, out),
        [0x08, a, b, c, seed] => {
            let len = u32::from_be_bytes([0, *a, *b, *c]);
            load(len, *seed, cart, memory, tallies, out)
        }
        [0x09] => Some(export(cart, memory, out)),
        [0x0A, record @ ..] if record.len() == CHIP_SIZE => {
            let reply = state_calls::restore_chip_state(cart, record);
            Some(status(cart, reply, out))
        }
        [0x0C, kind, a, b, c, d] => {
            let len = u32::from_be_bytes([*a, *b, *c, *d]);
            let len = fit(kind_of(*kind)?, len, out);
            Some(Played { cart, len })
        }
        [0x0D, kind] => {
            let len = size(kind_of(*kind)?, out);
            Some(Played { cart, len })
        }
        [0x10, a, b, c, d, seed, e, f, g, h, text @ ..] => {
            let len = u32::from_be_bytes([*a, *b, *c, *d]);
            let place = u32::from_be_bytes([*e, *f, *g, *h]);
            let len = image_answer(len, *seed, place, text, out)?;
            Some(Played { cart, len })
        }
        _ => None,
    }
}

pub fn answer(
    text: &[u8],
    cart: Cartridge,
    memory: &mut [u8],
    tallies: &mut [u16],
    out: &mut Output,
) -> Option<Played> {
    let mut room = [0; 256];
    let frame = decode(&mut room, text)?;
    if let [0x0B, kind, a, b, c, d] = frame {
        let len = u32::from_be_bytes([*a, *b, *c, *d]);
        let kind = kind_of(*kind)?;
        return Some(fresh(kind, len, cart, memory, tallies, out));
    }
    let n = kind::memory_size(cart.kind).min(memory.len());
    let k = kind::tally_count(cart.kind).min(tallies.len());
    frame_answer(text, frame, cart, &mut memory[..n], &mut tallies[..k], out)
}
