// A whole trace.
ghost use Rattle.std.specs.Prelude.{◌≡◌, [], ◌++◌, ◌+◌, ◌*◌, ◌≤◌, length, take, drop};
ghost use Rattle.kind.specs.Kind.{memory_size};
ghost use Rattle.carttrace_lib.specs.Trace.{lines_from};
ghost use Rattle.cuttrace_lib.specs.Lines.{list_of};
ghost use Rattle.call_list.specs.Items.{ending_room};
ghost use Rattle.cuttrace_lib.specs.Printing.{Shows, lines_room};
ghost use Rattle.cuttrace_lib.specs.Setup.{prelude, prelude_room};
ghost use Rattle.cuttrace_lib.specs.Cuttrace.{accepted_text, played, longest_trace, cuttrace};
ghost use Rattle.cuttrace_lib.specs.Cuttrace.{settled};

use crate::lines::{collect, line_length};
use crate::printing::print_lines;
use crate::setup::{first_kind, prelude_room, put_image, put_prelude};
use kind::SaveType;

// A trace of more characters is refused.
const LONGEST_TRACE: usize = 500000;

// The number of the usual part.
// Kept: the replay is C's call, which takes a number.
const USUAL_PART: u32 = 0;

// Writes the list to the front of the room and returns its length.
fn put_list(kind: SaveType, text: &[u8], room: &mut [u8]) -> usize
    requires text_len_bound { length text.now ≤ longest_trace }
    requires text_bound { 16394 + length text.now ≤ 2 * length room.old }
    ensures room_after { take result room.new ≡ prelude kind ++ list_of (lines_from [] text.now) }
    ensures upper_bound { result ≤ length room.new }
{
    let begun = put_prelude(kind, room);
    begun + collect(text, &mut room[begun..])
}

// Prints the answers of an accepted replay.
fn print_all(kind: SaveType, text: &[u8], room: &mut [u8], answers: &[u8], out: &mut [u8]) -> usize
    requires text_len_bound { length text.now ≤ longest_trace }
    requires text_len_bound_2 { length text.now ≤ 2 * length room.old }
    requires kind_in_bounds { prelude_room kind + (lines_room (lines_from [] text.now) + ending_room (memory_size kind))
        ≤ length answers.now }
    requires text_in_bounds { 2 * length answers.now + 3 * length text.now + 12 ≤ length out.old }
    ensures { Shows (accepted_text kind (lines_from [] text.now) answers.now)
        result out.new out.old }
{
    let from = prelude_room(kind);
    let n = frames::print_line(out, 0, b"");
    n + print_lines(
        text,
        kind::memory_size(kind),
        room,
        &answers[from..],
        &mut out[n..],
    )
}

// Plays the lines after line 1.
fn play_lines(
    kind: SaveType,
    text: &[u8],
    list: &mut [u8],
    memory: &mut [u8],
    scratch: &mut [u8],
    answers: &mut [u8],
    out: &mut [u8],
) -> usize
    requires text_len_bound { length text.now ≤ longest_trace }
    requires text_bound { 16394 + length text.now ≤ 2 * length list.old }
    requires in_bounds { 131072 ≤ length memory.old }
    requires in_bounds_2 { 131072 ≤ length scratch.old }
    requires text_in_bounds { 2 * length answers.old + 3 * length text.now + 12 ≤ length out.old }
    ensures { Shows (played kind (lines_from [] text.now)
        memory.old scratch.old answers.old)
        result out.new out.old }
{
    let mut image = [0u8; 192];
    put_image(kind, &mut image);
    let used = put_list(kind, text, list);
    let n = kind::memory_size(kind);
    let refusal = replay::gbasave_replay(
        &image,
        USUAL_PART,
        &list[..used],
        &mut memory[..n],
        &mut scratch[..n],
        answers,
    );
    // Kept: the call is C's, which has a number for a Result.
    if refusal != 0 {
        return frames::print_line(out, (refusal % 256) as u8, b"");
    }
    print_all(kind, text, list, answers, out)
}

// Where the lines after line 1 begin.
fn after_line(end: usize, text: &[u8]) -> usize
    requires { end ≤ length text.now }
    ensures { (result ≤ length text.now)
        × (drop result text.now ≡ drop (end + 1) text.now) }
{
    if end < text.len() {
        return end + 1;
    }
    end
}

// Writes what a trace prints to the front of the output and returns its length.
pub fn run_trace(
    text: &[u8],
    list: &mut [u8],
    memory: &mut [u8],
    scratch: &mut [u8],
    answers: &mut [u8],
    out: &mut [u8],
) -> usize
    requires longest_trace_bound { 16394 + longest_trace ≤ 2 * length list.old }
    requires in_bounds { 131072 ≤ length memory.old }
    requires in_bounds_2 { 131072 ≤ length scratch.old }
    requires longest_trace_in_bounds { 2 * length answers.old + 3 * longest_trace + 12 ≤ length out.old }
    ensures shows { Shows
        (cuttrace text.now memory.old scratch.old answers.old)
        result out.new out.old }
    ensures upper_bound { result ≤ length out.old }
{
    if text.len() == 0 {
        return 0;
    }
    let end = line_length(text);
    let from = after_line(end, text);
    match first_kind(&text[..end]) {
        Some(kind) => {
            if LONGEST_TRACE < text.len() {
                return frames::print_line(out, 0xFD, b"");
            }
            play_lines(kind, &text[from..], list, memory, scratch, answers, out)
        }
        None => frames::print_line(out, 0xFF, b""),
    }
}

// Whether a trace is refused whatever follows. A caller then reads no further.
pub fn settled(text: &[u8]) -> bool
    ensures { result ≡ settled text.now }
{
    let end = line_length(text);
    match first_kind(&text[..end]) {
        Some(_) => LONGEST_TRACE < text.len(),
        None => end < text.len() || 2 < end,
    }
}
