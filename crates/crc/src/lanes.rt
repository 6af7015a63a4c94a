// A block of 32,768 bytes in eight lanes of 4,096. No lane waits for another; a round over all of them takes four bytes
// of each.
ghost use Rattle.std.specs.Prelude.{◌≡◌, ◌+◌, ◌≤◌, length};
ghost use Rattle.crc.specs.Lanes.{words_in, bytes_out, lane_ends};

use crate::table::Table;
use crate::words::word_at;

// Four bytes are added to each register.
fn words_in(registers: &mut [u32; 8], s: &[u8], i: usize)
    requires i_bound { i + 4 ≤ 4096 }
    requires s_len { length s.now ≡ 32768 }
    ensures { registers.new ≡ words_in s.now i registers.old }
{
    for (lane, register) in registers.iter_mut().enumerate() {
        *register ^= word_at(s, 4096 * lane + i);
    }
}

// Eight bits leave each register.
fn bytes_out(table: Table, registers: &mut [u32; 8])
    ensures { registers.new ≡ bytes_out registers.old }
{
    for register in registers.iter_mut() {
        *register = table.byte_out(*register);
    }
}

// What each lane leaves. The first continues from `c`, the others begin at 0.
pub fn lane_ends(table: Table, c: u32, s: &[u8]) -> [u32; 8]
    requires s_len { length s.now ≡ 32768 }
    ensures { result ≡ lane_ends c s.now 4096 }
{
    let mut registers = [c, 0, 0, 0, 0, 0, 0, 0];
    for word in 0..1024 {
        words_in(&mut registers, s, 4 * word);
        for _ in 0..4u8 {
            bytes_out(table, &mut registers);
        }
    }
    registers
}
