// Runs the trace in each file that an argument names, and prints what cuttrace prints for it.

#![tactic(auto)]

use std::io;
use std::rt::Runtime;

// Kept: cuttrace has the same lines; a program cannot be called, and cuttrace_lib prints nothing.
fn run(rt: &impl Print, text: &[u8]) -> io::Result<()> {
    let mut list = cuttrace_lib::large_room();
    let mut memory = cuttrace_lib::room();
    let mut scratch = cuttrace_lib::room();
    let mut answers = cuttrace_lib::large_room();
    let mut out = cuttrace_lib::output_room();
    let n = cuttrace_lib::run_trace(
        text,
        &mut list,
        &mut memory,
        &mut scratch,
        &mut answers,
        &mut out,
    );
    rt.write_all(&out[..n])
}

// A file that is longer than the longest trace is refused by its beginning.
fn case(rt: &impl Runtime, path: &[u8]) -> io::Result<()> {
    rt.write_all(b"== ")?;
    rt.write_all(path)?;
    rt.write_all(b"\n")?;
    let Some(mut file) = named_files::opened(rt, path)? else {
        return Ok(());
    };
    let mut text = cuttrace_lib::trace_room();
    let len = named_files::read_full(&mut file, &mut text)?;
    run(rt, &text[..len])
}

// Kept: `case` and `main` are those of test_cases but for the room and `run`; one for both would take these as
// closures.
fn main(rt: HostRuntime) -> io::Result<()> {
    let mut path = named_files::buffer();
    for k in 1..usize::MAX {
        let Some(n) = named_files::argument(&rt, k, &mut path) else {
            break;
        };
        case(&rt, &path[..n])?;
    }
    Ok(())
}
