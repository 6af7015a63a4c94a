// The header's complement check.
ghost use Rattle.std.specs.Prelude.{◌≡◌, ◌≤◌, length};
ghost use Rattle.image.specs.Image.{less, header_sum, header_checksum, answer_of};

use refusal::Refusal;

// x minus b, modulo 256.
fn minus(x: u8, b: u8) -> u8
    ensures { result ≡ less x b }
{
    x.wrapping_sub(b)
}

fn header_sum(image: &[u8]) -> u8
    requires { 192 ≤ length image.now }
    ensures { result ≡ header_sum image.now }
{
    let mut sum: u8 = 0;
    for byte in &image[0xA0..0xBD] {
        sum = minus(sum, *byte);
    }
    minus(sum, 0x19)
}

#[tactic(auto, using(lists::proofs::Bools::tests), unfolding(crate::specs::Image::header_checksum))]
pub fn header_checksum(image: &[u8]) -> Result<u32, Refusal>
    ensures { answer_of result ≡ header_checksum image.now }
{
    if image.len() < 192 {
        return Err(Refusal::ImageLength);
    }
    Ok(u32::from(header_sum(image)))
}
