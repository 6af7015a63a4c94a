// The bytes of a line of digits.
ghost use Rattle.std.specs.Prelude.{◌≡◌, cond, ◌*◌, ◌/◌, ◌<◌, ◌≤◌, length, take, MatchOption};
ghost use Rattle.std.proofs.Math.Option.{none, some};
ghost use Rattle.cuttrace_lib.specs.Lines.{byte_of, unhex};

// The byte of two digits, if both characters are digits.
#[tactic(auto, using(lists::proofs::Bools::tests), unfolding(crate::specs::Lines::byte_of))]
fn byte_of(a: u8, b: u8) -> Option<u8>
    ensures { MatchOption result (byte_of a b ≡ 256) (λ v. (v ≡ byte_of a b) × (v < 256)) }
{
    Some(hex_text::digit(a)? * 16 + hex_text::digit(b)?)
}

// Whether a line is digits, two for each byte; its bytes are then at the front of the room.
pub fn put_bytes(line: &[u8], room: &mut [u8]) -> bool
    requires { length line.now ≤ 2 * length room.old }
    ensures { unhex line.now
        ≡ cond result (some (take (length line.now / 2) room.new)) none }
{
    if line.len() % 2 != 0 {
        return false;
    }
    for i in 0..line.len() / 2 {
        let Some(byte) = byte_of(line[2 * i], line[2 * i + 1]) else {
            return false;
        };
        room[i] = byte;
    }
    true
}
