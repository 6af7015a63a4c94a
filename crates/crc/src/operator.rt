// The operator that joins lanes: number i is digit i of the register after the 32,768 bits of a lane have left it.
// `Operator` holds it by reference, as `Table` does.
ghost use Rattle.std.specs.Prelude.{◌≡◌, ◌*◌, ◌%◌};
ghost use Rattle.std.specs.Int.Bits.{bit_xor};
ghost use Rattle.crc.specs.Crc.{crc_bits};
ghost use Rattle.crc.specs.Operator.{lane_operator, picked};

pub const AFTER_LANE: [u32; 32] = [
    0x5AD8A92C, 0xB5B15258, 0xB013A2F1, 0xBB5643A3, 0xADDD8107, 0x80CA044F, 0xDAE50EDF, 0x6EBB1BFF,
    0xDD7637FE, 0x619D69BD, 0xC33AD37A, 0x5D04A0B5, 0xBA09416A, 0xAF638495, 0x85B60F6B, 0xD01D1897,
    0x7B4B376F, 0xF6966EDE, 0x365DDBFD, 0x6CBBB7FA, 0xD9776FF4, 0x699FD9A9, 0xD33FB352, 0x7D0E60E5,
    0xFA1CC1CA, 0x2F4885D5, 0x5E910BAA, 0xBD221754, 0xA13528E9, 0x991B5793, 0xE947A967, 0x09FE548F,
];

#[derive(Clone, Copy)]
pub struct Operator<'a> {
    pub numbers: &'a [u32; 32],
    ghost right: { numbers.now ≡ lane_operator },
}

// The number where the lowest digit of `v` is 1, and else 0.
fn if_one(x: u32, v: u32) -> u32
    ensures { result ≡ x * (v % 2) }
{
    x * (v % 2)
}

impl Operator<'_> {
    // The numbers at the digits of `c` that are 1, added without carries.
    fn pick(self, c: u32) -> u32
        ensures { result ≡ picked self.entry.numbers.now c }
    {
        let mut sum = 0;
        let mut digits = c;
        for number in self.numbers {
            sum ^= if_one(*number, digits);
            digits >>= 1;
        }
        sum
    }

    // The register `a` after a lane whose own bytes leave `b`.
    pub fn join(self, a: u32, b: u32) -> u32
        ensures { result ≡ bit_xor (crc_bits 32768 a) b }
    {
        self.pick(a) ^ b
    }
}
