// Tests of the phase, and the limit of its count.
ghost use Rattle.std.specs.Prelude.{◌≡◌};
ghost use Rattle.eeprom.specs.Eeprom.{is_address, count_limit};

use crate::EepromPhase;

pub fn is_address(phase: EepromPhase) -> bool
    ensures { result ≡ is_address phase }
{
    matches!(phase, EepromPhase::ReadAddress | EepromPhase::WriteAddress)
}

// The count of a phase stays below this number. By tests: the compiler makes a jump table of a match.
pub fn count_limit(phase: EepromPhase, w: u8) -> u8
    ensures { result ≡ count_limit phase w }
{
    if phase == EepromPhase::WriteData {
        return 64;
    }
    if is_address(phase) {
        return w;
    }
    if phase == EepromPhase::Opcode {
        return 2;
    }
    1
}
