// The lines of a text as a list of calls.
ghost use Rattle.std.specs.Prelude.{◌≡◌, [], ◌+◌, ◌*◌, ◌≤◌, ◌≢◌};
ghost use Rattle.std.specs.Prelude.{length, take, slice_index, EachIndex, MatchOption};
ghost use Rattle.carttrace_lib.specs.Trace.{lines_from};
ghost use Rattle.cuttrace_lib.specs.Lines.{IsLineEnd, line_length, line_item, line_code, code_length, list_of};
ghost use Rattle.cuttrace_lib.specs.Cuttrace.{longest_trace};

use crate::digits::put_bytes;
use call_list::Item;

// The place of the first line feed.
fn line_feed(text: &[u8]) -> Option<usize>
    ensures { MatchOption result (EachIndex text.now (λ k. slice_index text.now k ≢ 0x0A)) (IsLineEnd text.now) }
{
    text.iter().position(|c| *c == 0x0A)
}

// How many characters are before the line feed, or the text's end.
pub fn line_length(text: &[u8]) -> usize
    ensures { (result ≡ line_length text.now) × (result ≤ length text.now) }
{
    match line_feed(text) {
        Some(end) => end,
        None => text.len(),
    }
}

// The item of a line; its bytes are then at the front of the room.
pub fn read_line(line: &[u8], room: &mut [u8]) -> Item
    requires { length line.now ≤ 2 * length room.old }
    ensures value { result ≡ line_item line.now }
    ensures room_after { take (code_length result) room.new ≡ line_code line.now }
    ensures result_in_bounds { 2 * code_length result ≤ length line.now }
{
    let n = line.len() / 2;
    if n == 0 {
        return Item::Bad;
    }
    if !put_bytes(line, room) {
        return Item::Bad;
    }
    let item = call_list::item_in(&room[..n]);
    if call_list::item_length(item) != n {
        return Item::Bad;
    }
    item
}

// How many bytes of the list an item takes: none for a bad line.
fn code_length(item: Item) -> usize
    requires { code_length item ≤ 18446744073709551615 }
    ensures { result ≡ code_length item }
{
    if let Item::Bad = item {
        return 0;
    }
    call_list::item_length(item)
}

// Writes the list to the front of the room and returns its length.
pub fn collect(text: &[u8], room: &mut [u8]) -> usize
    requires text_len_bound { length text.now ≤ longest_trace }
    requires text_len_bound_2 { length text.now ≤ 2 * length room.old }
    ensures room_after { take result room.new ≡ list_of (lines_from [] text.now) }
    ensures result_in_bounds { 2 * result ≤ length text.now + 1 }
{
    let mut used = 0;
    let mut i = 0;
    // Kept: `split` has an empty line after a last line feed, and `split_inclusive` leaves the line feeds in.
    while i < text.len() {
        let end = i + line_length(&text[i..]);
        let item = read_line(&text[i..end], &mut room[used..]);
        used += code_length(item);
        i = end + 1;
    }
    used
}
