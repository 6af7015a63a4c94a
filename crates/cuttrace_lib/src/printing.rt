// Answers, printed as lines.
ghost use Rattle.std.specs.Prelude.{◌≡◌, [], ◌+◌, ◌*◌, ◌≤◌, length};
ghost use Rattle.carttrace_lib.specs.Trace.{lines_from};
ghost use Rattle.chip_record.specs.States.{state_size};
ghost use Rattle.call_list.specs.Items.{item_room, ending_room};
ghost use Rattle.cuttrace_lib.specs.Printing.{Shows, answer_text, state_text, item_text, file_text};
ghost use Rattle.cuttrace_lib.specs.Printing.{ending_text, lines_text, lines_room};
ghost use Rattle.cuttrace_lib.specs.Cuttrace.{longest_trace};

use crate::lines::{line_length, read_line};
use call_list::Item;
use chip_record::CHIP_SIZE;

// A refusal's number alone, or 00 and the bytes after the status.
fn print_answer(answer: &[u8], out: &mut [u8]) -> usize
    requires { 2 * length answer.now + 3 ≤ length out.old }
    ensures { Shows (answer_text answer.now) result out.new out.old }
{
    if answer.len() == 0 {
        return 0;
    }
    if answer[0] != 0 {
        return frames::print_line(out, answer[0], b"");
    }
    frames::print_line(out, 0, &answer[1..])
}

// The status and the chip record, which a state begins with.
fn print_state(answer: &[u8], out: &mut [u8]) -> usize
    requires answer_len { length answer.now ≡ 1 + state_size }
    requires answer_in_bounds { 2 * length answer.now + 3 ≤ length out.old }
    ensures { Shows (state_text answer.now) result out.new out.old }
{
    print_answer(&answer[..1 + CHIP_SIZE], out)
}

// FF for a bad line, nothing for a cut.
fn print_item(item: Item, answer: &[u8], out: &mut [u8]) -> usize
    requires answer_len { length answer.now ≡ item_room item }
    requires answer_in_bounds { 2 * length answer.now + 3 ≤ length out.old }
    ensures { Shows (item_text item answer.now) result out.new out.old }
{
    match item {
        Item::Bad => frames::print_line(out, 0xFF, b""),
        Item::ChipState => print_state(answer, out),
        _ => print_answer(answer, out),
    }
}

// The file after a status and its length.
fn print_file(answer: &[u8], out: &mut [u8]) -> usize
    requires in_bounds { 5 ≤ length answer.now }
    requires answer_in_bounds { 2 * length answer.now + 3 ≤ length out.old }
    ensures { Shows (file_text answer.now) result out.new out.old }
{
    if answer[0] != 0 {
        return frames::print_line(out, answer[0], b"");
    }
    let n = lists::low32(answer[4], answer[3], answer[2], answer[1]) as usize;
    let end = 5 + n.min(answer.len() - 5);
    frames::print_line(out, 0, &answer[5..end])
}

// After the last item's answer: the file and the chip record.
fn print_ending(memory: usize, ending: &[u8], out: &mut [u8]) -> usize
    requires ending_len { length ending.now ≡ ending_room memory }
    requires ending_in_bounds { 2 * length ending.now + 6 ≤ length out.old }
    ensures { Shows (ending_text memory ending.now) result out.new out.old }
{
    let middle = 5 + memory;
    let n = print_file(&ending[..middle], out);
    n + print_state(&ending[middle..], &mut out[n..])
}

// The answers to the lines of a text, and the ending for a memory of so many bytes. The room holds a line's bytes.
pub fn print_lines(
    text: &[u8],
    memory: usize,
    room: &mut [u8],
    answers: &[u8],
    out: &mut [u8],
) -> usize
    requires text_len_bound { length text.now ≤ longest_trace }
    requires memory_bound { memory ≤ 131072 }
    requires text_len_bound_2 { length text.now ≤ 2 * length room.old }
    requires memory_in_bounds { lines_room (lines_from [] text.now) + ending_room memory ≤ length answers.now }
    requires text_in_bounds { 2 * length answers.now + 3 * length text.now + 9 ≤ length out.old }
    ensures { Shows (lines_text memory (lines_from [] text.now) answers.now)
        result out.new out.old }
{
    let mut len = 0;
    let mut at = 0;
    let mut i = 0;
    // Kept: `split` has an empty line after a last line feed, and `split_inclusive` leaves the line feeds in.
    while i < text.len() {
        let end = i + line_length(&text[i..]);
        let item = read_line(&text[i..end], room);
        let next = at + call_list::item_room(item);
        len += print_item(item, &answers[at..next], &mut out[len..]);
        at = next;
        i = end + 1;
    }
    let end = at + call_list::ending_room(memory);
    len + print_ending(memory, &answers[at..end], &mut out[len..])
}
