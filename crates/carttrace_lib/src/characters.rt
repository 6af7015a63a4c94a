// The input, character by character.

ghost use Rattle.std.specs.Prelude.{◌≡◌, ◌*◌, ◌≤◌, length};
ghost use Rattle.carttrace_lib.specs.Session.{session_with, opened, begun, continued, line_ended};
ghost use Rattle.carttrace_lib.specs.Session.{took, took_all, finished, is_empty, told_with, told};
ghost use Rattle.carttrace_lib.specs.Session.{buffers, no_kind, over};
ghost use Rattle.carttrace_lib.specs.Trace.{longest_line};

use crate::one_frame::{play, print_status};
use crate::{Session, Stage, Told};
use cart::Cartridge;
use frames::Line;
use kind::SaveType;
use part::Part;

fn session_with(stage: Stage, line: Line, cart: Cartridge) -> Session
    ensures { result ≡ session_with stage line cart }
{
    Session {
        stage: stage,
        line: line,
        cart: cart,
    }
}

fn told_with(session: Session, len: usize) -> Told
    ensures { result ≡ told_with session len }
{
    Told {
        session: session,
        len: len,
    }
}

pub fn opened() -> Session
    ensures { result ≡ opened }
{
    session_with(
        Stage::First,
        frames::empty_line(),
        cart::fresh_cart(0, SaveType::None, Part::Usual),
    )
}

// At the end of line 1.
fn begin(
    first: Option<SaveType>,
    session: Session,
    memory: &mut [u8],
    tallies: &mut [u16],
    out: &mut [u8],
) -> Told
    requires in_bounds { 131072 ≤ length memory.old }
    requires in_bounds_2 { 32 ≤ length tallies.old }
    requires longest_line_in_bounds { longest_line ≤ length out.old }
    ensures { (result, memory.new, tallies.new, out.new)
        ≡ told (begun first session (buffers memory.old tallies.old)) out.old }
{
    match first {
        Some(kind) => {
            let n = kind::memory_size(kind);
            let k = kind::tally_count(kind);
            memory::blank(&mut memory[..n], &mut tallies[..k]);
            told_with(
                session_with(
                    Stage::Playing,
                    frames::empty_line(),
                    cart::fresh_cart(192, kind, Part::Usual),
                ),
                print_status(out, 0),
            )
        }
        None => {
            let cart = session.cart;
            told_with(
                session_with(Stage::Over, frames::empty_line(), cart),
                print_status(out, 0xFF),
            )
        }
    }
}

// At the end of a later line.
fn go_on(session: Session, memory: &mut [u8], tallies: &mut [u16], out: &mut [u8]) -> Told
    requires in_bounds { 131072 ≤ length memory.old }
    requires in_bounds_2 { 32 ≤ length tallies.old }
    requires longest_line_in_bounds { longest_line ≤ length out.old }
    ensures { (result, memory.new, tallies.new, out.new)
        ≡ told (continued session (buffers memory.old tallies.old)) out.old }
{
    let cart = session.cart;
    let line = session.line;
    let kind = cart.kind;
    let n = kind::memory_size(kind);
    let k = kind::tally_count(kind);
    let p = play(
        frames::frame_in(line),
        cart,
        &mut memory[..n],
        &mut tallies[..k],
        out,
    );
    let next = p.cart;
    told_with(
        session_with(Stage::Playing, frames::empty_line(), next),
        p.len,
    )
}

fn end_line(session: Session, memory: &mut [u8], tallies: &mut [u16], out: &mut [u8]) -> Told
    requires in_bounds { 131072 ≤ length memory.old }
    requires in_bounds_2 { 32 ≤ length tallies.old }
    requires longest_line_in_bounds { longest_line ≤ length out.old }
    ensures { (result, memory.new, tallies.new, out.new)
        ≡ told (line_ended session (buffers memory.old tallies.old)) out.old }
{
    let stage = session.stage;
    let line = session.line;
    match stage {
        Stage::First => begin(frames::first_in(line), session, memory, tallies, out),
        Stage::Playing => go_on(session, memory, tallies, out),
        Stage::Over => told_with(session, 0),
    }
}

fn take_in(session: Session, c: u8, memory: &mut [u8], tallies: &mut [u16], out: &mut [u8]) -> Told
    requires in_bounds { 131072 ≤ length memory.old }
    requires in_bounds_2 { 32 ≤ length tallies.old }
    requires longest_line_in_bounds { longest_line ≤ length out.old }
    ensures { (result, memory.new, tallies.new, out.new)
        ≡ told (took session c (buffers memory.old tallies.old)) out.old }
{
    if c == 0x0A {
        return end_line(session, memory, tallies, out);
    }
    let stage = session.stage;
    let line = session.line;
    let cart = session.cart;
    told_with(session_with(stage, frames::push(line, c), cart), 0)
}

// Takes a piece of the input. What it prints goes to the front of the output.
pub fn feed(
    session: Session,
    input: &[u8],
    memory: &mut [u8],
    tallies: &mut [u16],
    out: &mut [u8],
) -> Told
    requires in_bounds { 131072 ≤ length memory.old }
    requires in_bounds_2 { 32 ≤ length tallies.old }
    requires input_in_bounds { longest_line * length input.now ≤ length out.old }
    ensures out_after { (result, memory.new, tallies.new, out.new)
        ≡ told (took_all input.now session (buffers memory.old tallies.old))
        out.old }
    ensures len_in_bounds { result.len ≤ length out.old }
{
    let mut s = session;
    let mut len = 0;
    for c in input {
        let t = take_in(s, *c, memory, tallies, &mut out[len..]);
        s = t.session;
        len += t.len;
    }
    told_with(s, len)
}

// After the whole input: a last line without a line feed.
pub fn finish(session: Session, memory: &mut [u8], tallies: &mut [u16], out: &mut [u8]) -> Told
    requires in_bounds { 131072 ≤ length memory.old }
    requires in_bounds_2 { 32 ≤ length tallies.old }
    requires longest_line_in_bounds { longest_line ≤ length out.old }
    ensures out_after { (result, memory.new, tallies.new, out.new)
        ≡ told (finished session (buffers memory.old tallies.old)) out.old }
    ensures len_in_bounds { result.len ≤ length out.old }
{
    let line = session.line;
    if is_empty(line) {
        return told_with(session, 0);
    }
    end_line(session, memory, tallies, out)
}

fn is_empty(l: Line) -> bool
    ensures { result ≡ is_empty l }
{
    l.good && l.count == 0
}

// A line so far that can become no kind.
fn no_kind(l: Line) -> bool
    ensures { result ≡ no_kind l }
{
    !l.good || 2 < l.count
}

// Whether line 1 is bad, so that nothing that follows changes what is printed. A caller then reads no further.
pub fn over(session: Session) -> bool
    ensures { result ≡ over session }
{
    let stage = session.stage;
    let line = session.line;
    match stage {
        Stage::First => no_kind(line),
        Stage::Playing => false,
        Stage::Over => true,
    }
}
