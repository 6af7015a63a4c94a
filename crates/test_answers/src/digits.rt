// Digits to bytes.
ghost use Rattle.std.specs.Prelude.{◌≤◌, length, IfSome};

// The byte of two digits, if both characters are digits.
pub fn pair(high: u8, low: u8) -> Option<u8> {
    Some(hex_text::digit(high)? * 16 + hex_text::digit(low)?)
}

// The bytes of a text of digits, in a room; none if it is no such text or too long.
pub fn decode<'a>(room: &'a mut [u8], text: &[u8]) -> Option<&'a [u8]>
    ensures { IfSome result (λ bytes. length bytes.now ≤ length room.old) }
{
    let (pairs, rest) = text.as_chunks::<2>();
    if !rest.is_empty() || room.len() < pairs.len() {
        return None;
    }
    for (byte, [high, low]) in room.iter_mut().zip(pairs) {
        *byte = pair(*high, *low)?;
    }
    room.get(..pairs.len())
}
