// Which files can be a kind's, by their length, and of doubled ones by what import drops.

#![tactic(auto)]

mod doubled;

ghost use Rattle.std.specs.Prelude.{◌≡◌};
ghost use Rattle.file_sizes.specs.SaveFit.{chip_size, save_fit, taken, save_size, save_fit_of, save_size_of, kept_part};

pub use doubled::file_door;
use kind::SaveType;

// Accepted file sizes by kind number, without a footer: the smaller, the larger, and what is kept of the larger.
// It is a static, since a read of a constant would copy it whole.
static FILE_SIZES: [(usize, usize, usize); 6] = [
    (0, 0, 0),
    (32768, 65536, 32768),
    (65536, 65536, 65536),
    (131072, 131072, 131072),
    (512, 8192, 8192),
    (512, 8192, 8192),
];

#[tactic(auto, unfolding(crate::specs::SaveFit::save_size))]
pub fn save_size(kind: SaveType) -> usize
    ensures { result ≡ save_size kind }
{
    let (_, _, kept) = FILE_SIZES[kind as usize];
    kept
}

// A file of a chip's size, or with the 16 bytes of a footer.
#[tactic(auto, using(lists::proofs::Bools::tests), unfolding(crate::specs::SaveFit::chip_size))]
fn chip_size(size: usize, file: usize) -> bool
    ensures { result ≡ chip_size size file }
{
    file == size || (size < file && file - size == 16)
}

// How many bytes of a save file are kept, or none if the file cannot be this kind's.
#[tactic(auto, unfolding(crate::specs::SaveFit::save_fit, crate::specs::SaveFit::eeprom_fit))]
pub fn save_fit(kind: SaveType, file: usize) -> Option<usize>
    ensures { result ≡ save_fit kind file }
{
    if kind == SaveType::None {
        return None;
    }
    let (small, large, kept) = FILE_SIZES[kind as usize];
    if chip_size(small, file) {
        return Some(small);
    }
    if chip_size(large, file) {
        return Some(kept);
    }
    None
}

pub fn takes(kind: SaveType, n: usize) -> bool
    ensures { result ≡ taken (save_fit kind n) }
{
    save_fit(kind, n).is_some()
}

// The same of an image.
#[tactic(auto, using(lists::proofs::Bools::tests), unfolding(crate::specs::SaveFit::save_fit_of))]
pub fn save_fit_of(image: &[u8], file: usize) -> Option<usize>
    ensures { result ≡ save_fit_of image.now file }
{
    if image.len() < 192 {
        return None;
    }
    save_fit(matcher::detect_save_type(image), file)
}

#[tactic(auto, using(lists::proofs::Bools::tests), unfolding(crate::specs::SaveFit::save_size_of))]
pub fn save_size_of(image: &[u8]) -> usize
    ensures { result ≡ save_size_of image.now }
{
    if image.len() < 192 {
        return 0;
    }
    save_size(matcher::detect_save_type(image))
}

// What import keeps of a file, its footer cut off, or an empty part.
#[tactic(auto, unfolding(crate::specs::SaveFit::kept_part))]
pub fn kept_part(kind: SaveType, file: &[u8]) -> &[u8]
    ensures { result.now ≡ kept_part kind file.now }
{
    match save_fit(kind, file.len()) {
        Some(n) => &file[..n],
        None => &file[..0],
    }
}
