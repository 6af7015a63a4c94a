// What a call needs of a record's bytes.
ghost use Rattle.std.specs.Prelude.{◌≡◌};
ghost use Rattle.c_record.specs.RecordBytes.{cart_of};

use crate::layout;
use crate::layout::RecordBytes;
use eeprom::Eeprom;
use flash::Flash;
use kind::SaveType;
use part::Part;

pub fn len_in(cart: &RecordBytes) -> usize
    ensures { result ≡ (cart_of cart.now).len }
{
    lists::low32(cart[0], cart[1], cart[2], cart[3]) as usize
}

pub fn kind_in(cart: &RecordBytes) -> SaveType
    ensures { result ≡ (cart_of cart.now).kind }
{
    kind::kind_of(cart[layout::KIND])
}

pub fn part_in(cart: &RecordBytes) -> Part
    ensures { result ≡ (cart_of cart.now).part }
{
    part::part_of(u32::from(cart[layout::PART]))
}

pub fn flash_in(cart: &RecordBytes) -> Flash
    ensures { result ≡ (cart_of cart.now).chip.flash }
{
    Flash {
        state: cart[layout::FLASH_STATE],
        bank: cart[layout::BANK],
        id: cart[layout::ID_MODE] == 1,
    }
}

pub fn eeprom_in(cart: &RecordBytes) -> Eeprom
    ensures { result ≡ (cart_of cart.now).chip.eeprom }
{
    chip_record::chip_of(&cart[layout::CHIP..layout::PART]).eeprom
}
