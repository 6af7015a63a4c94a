// Lines printed.

ghost use Rattle.std.specs.Prelude.{◌≡◌, ◌+◌, ◌*◌, ◌/◌, ◌%◌, ◌≤◌, length, set};
ghost use Rattle.lists.specs.Lists.{into};
ghost use Rattle.hex_text.specs.Hex.{character};
ghost use Rattle.frames.specs.Frames.{line_of};

// A byte's two digits.
fn put_digits(out: &mut [u8], at: usize, b: u8)
    requires { at + 2 ≤ length out.old }
    ensures out_len_unchanged { length out.new ≡ length out.old }
    ensures out_after { out.new
        ≡ set (set out.old at (character (b / 16 % 16))) (at + 1) (character (b % 16)) }
{
    out[at] = hex_text::character(b / 16 % 16);
    out[at + 1] = hex_text::character(b % 16);
}

// Writes a status, an answer's bytes and a line feed to the front of the output. Returns the length of the line.
pub fn print_line(out: &mut [u8], status: u8, bytes: &[u8]) -> usize
    requires { 2 * length bytes.now + 3 ≤ length out.old }
    ensures value { result ≡ length (line_of status bytes.now) }
    ensures out_after { out.new ≡ into (line_of status bytes.now) out.old }
{
    put_digits(out, 0, status);
    let mut end = 2;
    for byte in bytes {
        put_digits(out, end, *byte);
        end += 2;
    }
    out[end] = 0x0A;
    end + 1
}
