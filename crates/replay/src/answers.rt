// What a call answers, as bytes. The caller's output is as long as the answer.
ghost use Rattle.std.specs.Prelude.{◌≡◌, [], ◌∷◌, ◌+◌, ◌-◌, ◌%◌, ◌≤◌, length};
ghost use Rattle.chip_record.specs.States.{state_size};
ghost use Rattle.cart.specs.declared.Cartridge.{Cartridge};
ghost use Rattle.cart.specs.Replies.{state, reply_from, export_replied};
ghost use Rattle.state_calls.specs.StateAnswer.{state_answer_from};
ghost use Rattle.replay.specs.Replay.{four_bytes, file_answer, export_into};

use cart::{Cartridge, Reply};
use chip_record::StateBytes;
use refusal::Refusal;

// 0, or a refusal's number.
fn status_of(reply: Reply) -> u8
    ensures { (cart : Cartridge) → result ≡ (reply_from cart reply).refusal }
{
    match reply {
        Ok(_) => 0,
        Err(refusal) => refusal.number(),
    }
}

pub fn put_status(out: &mut [u8], reply: Reply)
    requires { length out.old ≡ 1 }
    ensures { (cart : Cartridge) → out.new ≡ (reply_from cart reply).refusal ∷ [] }
{
    out[0] = status_of(reply);
}

pub fn put_value(out: &mut [u8], reply: Reply)
    requires { length out.old ≡ 2 }
    ensures { (cart : Cartridge) → let r = reply_from cart reply in
        out.new ≡ r.refusal ∷ r.value % 256 ∷ [] }
{
    out[0] = status_of(reply);
    out[1] = (cart::value_of(reply) % 256) as u8;
}

pub fn put_state(out: &mut [u8], state: Result<StateBytes, Refusal>)
    requires { length out.old ≡ 1 + state_size }
    ensures { let a = state_answer_from state in out.new ≡ a.refusal ∷ a.bytes }
{
    match state {
        Ok(bytes) => {
            out[0] = 0;
            out[1..].copy_from_slice(&bytes);
        }
        Err(refusal) => {
            out[0] = refusal.number();
            out[1..].fill(0);
        }
    }
}

// An export into zeros.
fn export_into(cart: Cartridge, memory: &[u8], destination: &mut [u8]) -> Reply
    ensures { (reply_from cart result, destination.new)
        ≡ export_replied (export_into (length destination.old) (state cart memory.now)) }
{
    destination.fill(0);
    file_calls::save_data(cart, memory, destination)
}

fn put_length(out: &mut [u8], reply: Reply)
    requires { length out.old ≡ 5 }
    ensures { (cart : Cartridge) → let r = reply_from cart reply in
        out.new ≡ r.refusal ∷ four_bytes r.value }
{
    out[0] = status_of(reply);
    out[1..].copy_from_slice(&cart::value_of(reply).to_be_bytes());
}

// The destination is the output after its first five bytes.
pub fn put_file(cart: Cartridge, memory: &[u8], out: &mut [u8])
    requires { 5 ≤ length out.old }
    ensures out_after { out.new
        ≡ (file_answer (export_into (length out.old - 5) (state cart memory.now))).bytes }
    ensures out_len_unchanged { length out.new ≡ length out.old }
{
    let exported = export_into(cart, memory, &mut out[5..]);
    put_length(&mut out[..5], exported);
}
