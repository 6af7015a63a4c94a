// Vectors of images that come in pieces: the kind, and after how many bytes the matcher had it.
ghost use Rattle.std.specs.Prelude.{◌≡◌, ◌+◌, ◌*◌, ◌≤◌, ◌<◌, ◌^◌, length};

use crate::{MARKERS, put};
use matcher::Fed;
use std::io;

fn nothing_fed() -> Fed
    ensures { result.count ≡ 0 }
{
    Fed {
        matcher: matcher::start(),
        count: 0,
    }
}

// One more piece; the counts are added up.
fn add_piece(before: Fed, piece: &[u8]) -> Fed
    requires { before.count + length piece.now < 2 ^ 64 }
    ensures { result.count ≤ before.count + length piece.now }
{
    let more = matcher::feed(before.matcher, piece);
    Fed {
        count: before.count + more.count,
        ..more
    }
}

// Two pieces, with an empty one between them.
fn in_two(image: &[u8], cut: usize) -> Fed
    requires { cut ≤ length image.now }
{
    let first = add_piece(nothing_fed(), &image[..cut]);
    let second = add_piece(first, b"");
    add_piece(second, &image[cut..])
}

fn byte_by_byte(image: &[u8]) -> Fed {
    let mut now = nothing_fed();
    for byte in image {
        now = add_piece(now, &[*byte]);
    }
    now
}

// A header of zeros has no game code and no title.
fn print_fed(rt: &impl Print, fed: Fed, length: usize) -> io::Result<()> {
    let header = [0u8; 192];
    let kind = matcher::finish(fed.matcher, &header, length);
    print!(rt; "{kind:?} after {}", fed.count)
}

// A marker cut at a place, and the answer for an image that is cut there.
fn print_cut(
    rt: &impl Print,
    marker: &[u8],
    place: usize,
    image: &[u8],
    cut: usize,
) -> io::Result<()>
    requires { (place ≤ length marker.now) × (cut ≤ length image.now) }
{
    print!(rt; ", ")?;
    rt.write_all(&marker[..place])?;
    print!(rt; "|")?;
    rt.write_all(&marker[place..])?;
    print!(rt; " ")?;
    print_fed(rt, in_two(image, cut), image.len())
}

// The marker alone.
fn short_pieces(rt: &impl Print, marker: &[u8]) -> io::Result<()> {
    rt.write_all(marker)?;
    print!(rt; " in pieces of one byte: ")?;
    print_fed(rt, byte_by_byte(marker), marker.len())?;
    for place in 1..marker.len() {
        print_cut(rt, marker, place, marker, place)?;
    }
    println!(rt)
}

// The marker is cut behind byte 65: the bytes before the cut are passed over at once.
fn cut_in_zeros(rt: &impl Print, marker: &[u8], place: usize) -> io::Result<()>
    requires { (place ≤ length marker.now) × (place ≤ 65) }
{
    let mut image = [0u8; 128];
    put(&mut image, 65 - place, marker);
    print_cut(rt, marker, place, &image, 65)
}

fn long_pieces(rt: &impl Print, marker: &[u8]) -> io::Result<()>
    requires { length marker.now ≤ 65 }
{
    rt.write_all(marker)?;
    print!(rt; " in pieces of 65 and 63 bytes")?;
    for place in 1..marker.len() {
        cut_in_zeros(rt, marker, place)?;
    }
    println!(rt)
}

// So many pieces of 4,096 zeros.
fn add_zeros(before: Fed, pieces: usize) -> Fed
    requires { before.count + 4096 * pieces < 2 ^ 64 }
    ensures { result.count ≤ before.count + 4096 * pieces }
{
    let piece = [0; 4096];
    let mut now = before;
    for _ in 0..pieces {
        now = add_piece(now, &piece);
    }
    now
}

// A first piece, and 16 MiB with EEPROM_V last.
fn many_pieces(rt: &impl Print, first: &[u8]) -> io::Result<()>
    requires { length first.now ≤ 1 }
{
    let mut last = [0; 4096];
    put(&mut last, 4088, b"EEPROM_V");
    let zeros = add_zeros(add_piece(nothing_fed(), first), 4095);
    let all = add_piece(zeros, &last);
    let length = first.len() + 16777216;
    print!(rt; "{length} bytes in pieces: ")?;
    print_fed(rt, all, length)?;
    println!(rt)
}

pub fn pieces(rt: &impl Print) -> io::Result<()> {
    for marker in MARKERS {
        short_pieces(rt, marker)?;
    }
    for marker in MARKERS {
        long_pieces(rt, marker)?;
    }
    many_pieces(rt, b"")?;
    many_pieces(rt, b"\0")
}
