// Runs the trace in each file that an argument names and prints what carttrace prints for it. The text is fed in pieces
// of seven characters.

#![tactic(auto)]

ghost use Rattle.std.specs.Prelude.{◌≤◌, length};

use carttrace_lib::{Session, Told};
use std::io;
use std::rt::Runtime;

fn show(rt: &impl Print, told: Told, out: &[u8]) -> io::Result<Session>
    requires { told.len ≤ length out.now }
{
    rt.write_all(&out[..told.len])?;
    Ok(told.session)
}

// The text in pieces.
fn pieces(
    rt: &impl Print,
    text: &[u8],
    memory: &mut [u8],
    tallies: &mut [u16],
    out: &mut [u8],
) -> io::Result<Session>
    requires in_bounds { 131072 ≤ length memory.old }
    requires in_bounds_2 { 32 ≤ length tallies.old }
    requires in_bounds_3 { 4096 ≤ length out.old }
{
    let mut session = carttrace_lib::opened();
    for piece in text.chunks(7) {
        let told = carttrace_lib::feed(session, piece, memory, tallies, out);
        session = show(rt, told, out)?;
    }
    Ok(session)
}

fn run(
    rt: &impl Print,
    text: &[u8],
    memory: &mut [u8],
    tallies: &mut [u16],
    out: &mut [u8],
) -> io::Result<()>
    requires in_bounds { 131072 ≤ length memory.old }
    requires in_bounds_2 { 32 ≤ length tallies.old }
    requires in_bounds_3 { 4096 ≤ length out.old }
{
    let session = pieces(rt, text, memory, tallies, out)?;
    let told = carttrace_lib::finish(session, memory, tallies, out);
    show(rt, told, out)?;
    Ok(())
}

// A file of at most 4,096 bytes.
fn case(rt: &impl Runtime, path: &[u8]) -> io::Result<()> {
    rt.write_all(b"== ")?;
    rt.write_all(path)?;
    rt.write_all(b"\n")?;
    let Some(mut file) = named_files::opened(rt, path)? else {
        return Ok(());
    };
    let mut text = named_files::buffer();
    let len = named_files::read_full(&mut file, &mut text)?;
    let mut memory = [0; 131072];
    let mut tallies = [0; 32];
    let mut out = named_files::buffer();
    run(rt, &text[..len], &mut memory, &mut tallies, &mut out)
}

fn main(rt: HostRuntime) -> io::Result<()> {
    let mut path = named_files::buffer();
    for k in 1..usize::MAX {
        let Some(n) = named_files::argument(&rt, k, &mut path) else {
            break;
        };
        case(&rt, &path[..n])?;
    }
    Ok(())
}
