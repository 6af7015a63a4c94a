// carttrace: reads frames, one a line, and prints an answer for each. This is proved in the crate `carttrace_lib`; the
// program reads and writes. It takes the input in pieces, so that input and lines may be of any length.

#![tactic(auto)]

ghost use Rattle.std.specs.Prelude.{◌≡◌, ◌≤◌, length};

use carttrace_lib::Session;
use std::io;
use std::io::Read;

fn zeros<const N: usize>() -> [u8; N]
    ensures { N ≡ length result }
{
    [0; N]
}

// Plays a piece of the input, and prints its answers: 1,024 characters print at most 39 each.
fn piece(
    rt: &impl Print,
    text: &[u8],
    session: Session,
    memory: &mut [u8],
    tallies: &mut [u16],
    out: &mut [u8],
) -> io::Result<Session>
    requires text_bound { length text.now ≤ 1024 }
    requires in_bounds { 131072 ≤ length memory.old }
    requires in_bounds_2 { 32 ≤ length tallies.old }
    requires in_bounds_3 { 65536 ≤ length out.old }
{
    let told = carttrace_lib::feed(session, text, memory, tallies, out);
    rt.write_all(&out[..told.len])?;
    Ok(told.session)
}

// Reads to the end of the input, or until line 1 is bad.
fn pieces(
    rt: &impl Print,
    input: &mut impl Read,
    memory: &mut [u8],
    tallies: &mut [u16],
    out: &mut [u8],
) -> io::Result<Session>
    requires in_bounds { 131072 ≤ length memory.old }
    requires in_bounds_2 { 32 ≤ length tallies.old }
    requires in_bounds_3 { 65536 ≤ length out.old }
{
    let mut session = carttrace_lib::opened();
    let mut text = [0u8; 1024];
    for _ in 0..u64::MAX {
        let n = input.read(&mut text)?;
        if n == 0 {
            break;
        }
        session = piece(rt, &text[..n], session, memory, tallies, out)?;
        if carttrace_lib::over(session) {
            break;
        }
    }
    Ok(session)
}

fn run(
    rt: &impl Print,
    input: &mut impl Read,
    memory: &mut [u8],
    tallies: &mut [u16],
    out: &mut [u8],
) -> io::Result<()>
    requires in_bounds { 131072 ≤ length memory.old }
    requires in_bounds_2 { 32 ≤ length tallies.old }
    requires in_bounds_3 { 65536 ≤ length out.old }
{
    let session = pieces(rt, input, memory, tallies, out)?;
    let told = carttrace_lib::finish(session, memory, tallies, out);
    rt.write_all(&out[..told.len])
}

fn main(rt: HostRuntime) -> io::Result<()> {
    // Room for the save memory of every kind, and for what a piece of the input prints.
    let mut memory = zeros::<131072>();
    let mut tallies = [0u16; 32];
    let mut out = zeros::<65536>();
    run(&rt, &mut rt.reader(), &mut memory, &mut tallies, &mut out)
}
