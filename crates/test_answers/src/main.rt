// Replays the list of the original's answers: makes each line's call, prints every line whose answer differs, and
// counts. After each call it holds what the tallies answer against a full reading of the memory, and the last bytes of
// the state against the record. `compare/README.md` describes the frames.

#![tactic(auto)]

mod calls;
mod digits;
mod images;
mod kinds;
mod made;
mod score;
mod stretches;

use cart::Cartridge;
use kind::SaveType;
use part::Part;
use score::Score;
use std::io;
use stretches::{by_reading, by_tallies};

// Room for every printed answer.
// Kept: what prints one returns its length, as `frames::print_line` and `carttrace_lib::play` do.
type Output = [u8; 256];

// A line: frame, one space, answer.
fn frame_and_answer(line: &[u8]) -> (&[u8], &[u8]) {
    match line.iter().position(|c| *c == b' ') {
        Some(space) => (&line[..space], &line[space + 1..]),
        None => (line, b""),
    }
}

// The answer in `out` without its line feed.
fn answer_in(out: &[u8], len: usize) -> Option<&[u8]> {
    out.get(..len.checked_sub(1)?)
}

// Counts a difference, and prints the front of its line.
fn differ(rt: &impl Print, score: &mut Score, title: &str, frame: &[u8]) -> io::Result<()> {
    print!(rt; "{title}line {}: ", score.lines)?;
    rt.write_all(frame)?;
    score.differs();
    print!(rt; " expected ")
}

// The answer of a call; no answer never agrees.
fn answer_held(
    rt: &impl Print,
    score: &mut Score,
    frame: &[u8],
    expected: &[u8],
    told: Option<&[u8]>,
) -> io::Result<()> {
    if told.is_some_and(|answer| answer == expected) {
        return Ok(());
    }
    differ(rt, score, "", frame)?;
    rt.write_all(expected)?;
    print!(rt; " got ")?;
    match told {
        Some(answer) => rt.write_all(answer)?,
        None => print!(rt; "no answer")?,
    }
    println!(rt)
}

// What the tallies answer after the call of a frame.
fn tallies_held(
    rt: &impl Print,
    score: &mut Score,
    frame: &[u8],
    cart: Cartridge,
    memory: &[u8],
    tallies: &[u16],
) -> io::Result<()> {
    let read = by_reading(cart, memory);
    let told = by_tallies(cart, tallies);
    if told == Ok(read) {
        return Ok(());
    }
    differ(rt, score, "tallies, ", frame)?;
    match told {
        Ok(told) => println!(rt; "{read} got {told}"),
        Err(refusal) => println!(rt; "{read} got {:02X}", refusal.number()),
    }
}

// The state after the call of a frame, past the 18 bytes, which are all that the list has: the flag and the layout's
// number.
fn state_held(rt: &impl Print, score: &mut Score, frame: &[u8], cart: Cartridge) -> io::Result<()> {
    let rest = u16::from_be_bytes([u8::from(cart.dirty), 2]);
    let told = state_calls::chip_state(cart).map(|state| u16::from_be_bytes([
        state[18], state[19],
    ]));
    if told == Ok(rest) {
        return Ok(());
    }
    differ(rt, score, "state, ", frame)?;
    match told {
        Ok(told) => println!(rt; "00{rest:04X} got 00{told:04X}"),
        Err(refusal) => println!(rt; "00{rest:04X} got {:02X}0000", refusal.number()),
    }
}

// Makes a line's call. Returns the record after it.
fn play_line(
    rt: &impl Print,
    score: &mut Score,
    line: &[u8],
    cart: Cartridge,
    memory: &mut [u8],
    tallies: &mut [u16],
) -> io::Result<Cartridge> {
    let (frame, expected) = frame_and_answer(line);
    let mut out = [0; 256];
    let played = calls::answer(frame, cart, memory, tallies, &mut out);
    let (next, told) = match played {
        Some(played) => (played.cart, answer_in(&out, played.len)),
        None => (cart, None),
    };
    score.count(frame, told.is_some());
    answer_held(rt, score, frame, expected, told)?;
    tallies_held(rt, score, frame, next, memory, tallies)?;
    state_held(rt, score, frame, next)?;
    Ok(next)
}

fn play_list(rt: &impl Print, score: &mut Score, text: &[u8]) -> io::Result<()> {
    let mut memory = [0; 131072];
    let mut tallies = [0; 32];
    let mut cart = cart::fresh_cart(0, SaveType::None, Part::Usual);
    for line in text.split_inclusive(|c| *c == b'\n') {
        let line = line.strip_suffix(b"\n").unwrap_or(line);
        cart = play_line(rt, score, line, cart, &mut memory, &mut tallies)?;
    }
    Ok(())
}

fn main(rt: HostRuntime) -> io::Result<()> {
    let mut path = named_files::buffer();
    let n = named_files::argument(&rt, 1, &mut path).unwrap_or(0);
    let Some(mut file) = named_files::opened(&rt, &path[..n])? else {
        return Ok(());
    };
    let mut text = [0; 262144];
    let len = named_files::read_full(&mut file, &mut text)?;
    if len == text.len() {
        return println!(rt; "the list is too long");
    }
    let mut score = Score::new();
    play_list(&rt, &mut score, &text[..len])?;
    score.print(&rt)
}
