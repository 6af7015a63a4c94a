// cuttrace: reads a trace, one call a line, with loads, exports and cuts, replays it, and prints an answer for each
// line but a cut. This is proved in the crate `cuttrace_lib`; the program reads and writes.
//
// Line 1 is a kind, as in carttrace: 00 None, 01 Sram, 02 Flash64, 04 Eeprom512, 05 Eeprom8k. An Eeprom8k cartridge has
// an image above 16 MiB, for which there is no room here, so 05 is played as an Eeprom512 whose list begins with a load
// of 8,192 erased bytes. The load makes the chip large; from there on the two answer the same.

#![tactic(auto)]

ghost use Rattle.std.specs.Prelude.{◌≡◌, ◌≤◌, length, IfOk, OnErr};

use std::io;
use std::io::Read;

fn run(rt: &impl Print, text: &[u8]) -> io::Result<()> {
    let mut list = cuttrace_lib::large_room();
    let mut memory = cuttrace_lib::room();
    let mut scratch = cuttrace_lib::room();
    let mut answers = cuttrace_lib::large_room();
    let mut out = cuttrace_lib::output_room();
    let n = cuttrace_lib::run_trace(
        text,
        &mut list,
        &mut memory,
        &mut scratch,
        &mut answers,
        &mut out,
    );
    rt.write_all(&out[..n])
}

fn read_piece(input: &mut impl Read, room: &mut [u8]) -> io::Result<usize>
    ensures ok { IfOk result (λ n. n ≤ length room.old) }
    ensures err { OnErr result (length room.new ≡ length room.old) }
{
    input.read(room)
}

// Reads to the end of the input, or until the trace is refused whatever follows. Returns how many characters it read.
fn read_trace(input: &mut impl Read, text: &mut [u8]) -> io::Result<usize>
    ensures ok { IfOk result (λ n. n ≤ length text.old) }
    ensures err { OnErr result (length text.new ≡ length text.old) }
{
    let mut len = 0;
    // Kept: the step is what a read gave, and no method of `Read` asks after each whether to go on.
    while len < text.len() {
        let n = read_piece(input, &mut text[len..])?;
        if n == 0 {
            break;
        }
        len += n;
        if cuttrace_lib::settled(&text[..len]) {
            break;
        }
    }
    Ok(len)
}

fn main(rt: HostRuntime) -> io::Result<()> {
    let mut text = cuttrace_lib::trace_room();
    let len = read_trace(&mut rt.reader(), &mut text)?;
    run(&rt, &text[..len])
}
