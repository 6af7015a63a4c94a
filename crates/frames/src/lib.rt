// The lines of carttrace: a line read, and a line printed.

#![tactic(auto)]

mod print;

ghost use Rattle.std.specs.Prelude.{◌≡◌};
ghost use Rattle.frames.specs.Frames.{ten_digits, twelve_digits, two_digits, six_digits, frame_of, fresh_of, first_of};
ghost use Rattle.frames.specs.Frames.{empty_line, pushed, frame_in, first_in};

use kind::SaveType;
pub use print::print_line;

#[derive(Clone, Copy)]
pub enum Frame {
    // address
    SaveRead(u32),
    // address, value
    SaveWrite(u32, u8),
    EepromRead,
    EepromWrite(u16),
    // words
    BeginDma(u16),
    TakeFlag,
    ChipState,
    // Kept: a bad line is answered beside the others (FF), so an Option would only be matched apart.
    Bad,
}

// A line of any length, read so far: the count of its digits and their number, while it can still be a frame.
// Kept: `feed`, `finish` and `over` take any line so far, a bad one with its count and number too.
#[derive(Clone, Copy)]
pub struct Line {
    pub good: bool,
    pub count: u8,
    pub value: u64,
}

// Frames of 10, 12, 2 and 6 digits.
fn ten_digits(x: u64) -> Frame
    ensures { result ≡ ten_digits x }
{
    if x >> 32 == 1 {
        return Frame::SaveRead((x % 4294967296) as u32);
    }
    Frame::Bad
}

fn twelve_digits(x: u64) -> Frame
    ensures { result ≡ twelve_digits x }
{
    if x >> 40 == 2 {
        return Frame::SaveWrite(((x >> 8) % 4294967296) as u32, (x % 256) as u8);
    }
    Frame::Bad
}

fn two_digits(x: u64) -> Frame
    ensures { result ≡ two_digits x }
{
    match x {
        3 => Frame::EepromRead,
        6 => Frame::TakeFlag,
        7 => Frame::ChipState,
        _ => Frame::Bad,
    }
}

fn six_digits(x: u64) -> Frame
    ensures { result ≡ six_digits x }
{
    if x >> 16 == 4 {
        return Frame::EepromWrite((x % 65536) as u16);
    }
    if x >> 16 == 5 {
        return Frame::BeginDma((x % 65536) as u16);
    }
    Frame::Bad
}

fn frame_of(n: u8, x: u64) -> Frame
    ensures { result ≡ frame_of n x }
{
    match n {
        10 => ten_digits(x),
        12 => twelve_digits(x),
        2 => two_digits(x),
        6 => six_digits(x),
        _ => Frame::Bad,
    }
}

fn fresh_of(x: u64) -> Option<SaveType>
    ensures { result ≡ fresh_of x }
{
    match x {
        0 => Some(SaveType::None),
        1 => Some(SaveType::Sram),
        2 => Some(SaveType::Flash64),
        4 => Some(SaveType::Eeprom512),
        5 => Some(SaveType::Eeprom8k),
        _ => None,
    }
}

fn first_of(n: u8, x: u64) -> Option<SaveType>
    ensures { result ≡ first_of n x }
{
    if n == 2 {
        return fresh_of(x);
    }
    None
}

pub fn empty_line() -> Line
    ensures { result ≡ empty_line }
{
    Line {
        good: true,
        count: 0,
        value: 0,
    }
}

// A line with one more character.
pub fn push(l: Line, c: u8) -> Line
    ensures { result ≡ pushed l c }
{
    if !l.good {
        return l;
    }
    match hex_text::digit(c) {
        Some(v) if l.count < 12 => Line {
            count: l.count + 1,
            value: (l.value << 4) + u64::from(v),
            ..l
        },
        _ => Line { good: false, ..l },
    }
}

pub fn frame_in(l: Line) -> Frame
    ensures { result ≡ frame_in l }
{
    if l.good {
        return frame_of(l.count, l.value);
    }
    Frame::Bad
}

pub fn first_in(l: Line) -> Option<SaveType>
    ensures { result ≡ first_in l }
{
    if l.good {
        return first_of(l.count, l.value);
    }
    None
}
