// Files and images that a frame gives by length and seed.

// Byte i is (seed + 7 × i + i / 256) mod 256.
pub fn make_file(file: &mut [u8], seed: u8) {
    for (i, byte) in file.iter_mut().enumerate() {
        *byte = seed.wrapping_add(((i % 256 * 7 + i / 256) % 256) as u8);
    }
}

// Byte i is (seed × (i / 64 + 1) + 13 × i) mod 256.
fn make_rows(image: &mut [u8], seed: u8) {
    for (i, byte) in image.iter_mut().enumerate() {
        let row = seed.wrapping_mul(((i / 64 + 1) % 256) as u8);
        *byte = row.wrapping_add((i % 256 * 13 % 256) as u8);
    }
}

// Seed 0 gives zeros.
pub fn make_image(image: &mut [u8], seed: u8) {
    if seed == 0 {
        image.fill(0);
    } else {
        make_rows(image, seed);
    }
}

// Writes a text at a place; what would go past the end is left out.
// Kept: `put` of test_vectors has the same lines; a crate for both would be longer than they are.
pub fn put_text(image: &mut [u8], place: usize, text: &[u8]) {
    for (to, from) in image.iter_mut().skip(place).zip(text) {
        *to = *from;
    }
}
