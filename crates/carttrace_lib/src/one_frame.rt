// A frame, played as its call, and the answer as a line.

ghost use Rattle.std.specs.Prelude.{◌≡◌, [], ◌≤◌, length};
ghost use Rattle.cart.specs.Replies.{tallied, reply_from};
ghost use Rattle.state_calls.specs.StateAnswer.{state_answer_from};
ghost use Rattle.frames.specs.Frames.{line_of};
ghost use Rattle.carttrace_lib.specs.Trace.{longest_line, play, status_line, value_line, state_line};
ghost use Rattle.carttrace_lib.specs.Trace.{written, played_with, left, shown};

use crate::Played;
use cart::{Cartridge, Reply};
use chip_record::{CHIP_SIZE, StateBytes};
use frames::Frame;
use refusal::Refusal;

// A status alone.
pub fn print_status(out: &mut [u8], status: u8) -> usize
    requires { 3 ≤ length out.old }
    ensures { (result, out.new) ≡ written (line_of status []) out.old }
{
    frames::print_line(out, status, b"")
}

// 00 and the chip record, the first bytes of a state, or the refusal.
fn print_state(out: &mut [u8], state: Result<StateBytes, Refusal>) -> usize
    requires { longest_line ≤ length out.old }
    ensures { (result, out.new) ≡ written (state_line (state_answer_from state)) out.old }
{
    match state {
        Ok(bytes) => frames::print_line(out, 0, &bytes[..CHIP_SIZE]),
        Err(refusal) => print_status(out, refusal.number()),
    }
}

fn played_with(cart: Cartridge, len: usize) -> Played
    ensures { result ≡ played_with cart len }
{
    Played { cart, len }
}

// The status of a call that was passed the record.
fn show_status(cart: Cartridge, reply: Reply, out: &mut [u8]) -> Played
    requires { longest_line ≤ length out.old }
    ensures { let r = reply_from cart reply in
        (result, out.new) ≡ left r.cart (status_line r) out.old }
{
    match reply {
        Ok(accepted) => played_with(accepted.cart, print_status(out, 0)),
        Err(refusal) => played_with(cart, print_status(out, refusal.number())),
    }
}

// 00 and the byte that a call answers, or its refusal.
fn show_value(cart: Cartridge, reply: Reply, out: &mut [u8]) -> Played
    requires { longest_line ≤ length out.old }
    ensures { let r = reply_from cart reply in
        (result, out.new) ≡ left r.cart (value_line r) out.old }
{
    match reply {
        Ok(accepted) => {
            let byte = (accepted.value % 256) as u8;
            played_with(accepted.cart, frames::print_line(out, 0, &[byte]))
        }
        Err(refusal) => played_with(cart, print_status(out, refusal.number())),
    }
}

// The call that a frame names.
pub fn play(
    frame: Frame,
    cart: Cartridge,
    memory: &mut [u8],
    tallies: &mut [u16],
    out: &mut [u8],
) -> Played
    requires { longest_line ≤ length out.old }
    ensures { (result, memory.new, tallies.new, out.new)
        ≡ shown (play frame (tallied cart memory.old tallies.old))
        out.old }
{
    match frame {
        Frame::SaveRead(address) => {
            show_value(cart, byte_calls::save_read(cart, memory, address), out)
        }
        Frame::SaveWrite(address, value) => show_status(
            cart,
            byte_calls::save_write(cart, memory, tallies, address, value),
            out,
        ),
        Frame::EepromRead => show_value(cart, serial_calls::eeprom_read(cart, memory), out),
        Frame::EepromWrite(value) => show_status(
            cart,
            serial_calls::eeprom_write(cart, memory, tallies, value),
            out,
        ),
        Frame::BeginDma(words) => show_status(
            cart,
            serial_calls::eeprom_begin_dma(cart, usize::from(words)),
            out,
        ),
        Frame::TakeFlag => show_value(cart, state_calls::take_save_dirty(cart), out),
        Frame::ChipState => played_with(cart, print_state(out, state_calls::chip_state(cart))),
        Frame::Bad => played_with(cart, print_status(out, 0xFF)),
    }
}
