// The calls on an image, or on a kind's and a part's number.
ghost use Rattle.std.specs.Prelude.{◌≡◌};
ghost use Rattle.out_params.specs.Places.{answered_at, kind_answer, title_at};
ghost use Rattle.out_params.specs.Places.{fit_answer, memory_size_answer, size_answer};
ghost use Rattle.out_params.specs.Places.{id_word_answer};
ghost use Rattle.out_params.specs.Places.{told};
ghost use Rattle.image.specs.Image.{read, header_checksum};
ghost use Rattle.title.specs.Title.{header_title};
ghost use Rattle.crc.specs.Crc.{rom_crc};
ghost use Rattle.crc.specs.Pieces.{crc_start, crc_feed, crc_finish};

#[unsafe(no_mangle)]
pub extern "C" fn gbasave_read(image: &[u8], address: u32, value: &mut u32) -> u32
    ensures { (result, value.new)
        ≡ answered_at (read 1 image.now address) value.old }
{
    cart_abi::gbasave_read(image, address, value)
}

#[unsafe(no_mangle)]
pub extern "C" fn gbasave_read16(image: &[u8], address: u32, value: &mut u32) -> u32
    ensures { (result, value.new)
        ≡ answered_at (read 2 image.now address) value.old }
{
    cart_abi::gbasave_read16(image, address, value)
}

#[unsafe(no_mangle)]
pub extern "C" fn gbasave_read32(image: &[u8], address: u32, value: &mut u32) -> u32
    ensures { (result, value.new)
        ≡ answered_at (read 4 image.now address) value.old }
{
    cart_abi::gbasave_read32(image, address, value)
}

#[unsafe(no_mangle)]
pub extern "C" fn gbasave_header_checksum(image: &[u8], value: &mut u32) -> u32
    ensures { (result, value.new)
        ≡ answered_at (header_checksum image.now) value.old }
{
    cart_abi::gbasave_header_checksum(image, value)
}

#[unsafe(no_mangle)]
pub extern "C" fn gbasave_title(image: &[u8], destination: &mut [u8], length: &mut u32) -> u32
    ensures { (result, destination.new, length.new)
        ≡ title_at (header_title image.now destination.old) length.old }
{
    cart_abi::gbasave_title(image, destination, length)
}

#[unsafe(no_mangle)]
pub extern "C" fn gbasave_rom_crc(image: &[u8], value: &mut u32) -> u32
    ensures { (result, value.new) ≡ answered_at (rom_crc image.now) value.old }
{
    cart_abi::gbasave_rom_crc(image, value)
}

// The CRC of an image that comes in parts. These calls ask nothing.
#[unsafe(no_mangle)]
pub extern "C" fn gbasave_crc_start(crc: &mut u32) -> u32
    ensures { (result, crc.new) ≡ told 0 crc_start crc.old }
{
    cart_abi::gbasave_crc_start(crc)
}

#[unsafe(no_mangle)]
pub extern "C" fn gbasave_crc_feed(crc: &mut u32, part: &[u8]) -> u32
    ensures { (result, crc.new)
        ≡ told 0 (crc_feed crc.old part.now) crc.old }
{
    cart_abi::gbasave_crc_feed(crc, part)
}

#[unsafe(no_mangle)]
pub extern "C" fn gbasave_crc_finish(crc: &mut u32) -> u32
    ensures { (result, crc.new) ≡ told 0 (crc_finish crc.old) crc.old }
{
    cart_abi::gbasave_crc_finish(crc)
}

// It asks question 1.
#[unsafe(no_mangle)]
pub extern "C" fn gbasave_detect_save_type(image: &[u8], kind: &mut u32) -> u32
    ensures { (result, kind.new) ≡ answered_at (kind_answer image.now) kind.old }
{
    cart_abi::gbasave_detect_save_type(image, kind)
}

// 0 is kept of a file that cannot be this image's.
#[unsafe(no_mangle)]
pub extern "C" fn gbasave_save_fit(image: &[u8], length: usize, kept: &mut u32) -> u32
    ensures { (result, kept.new)
        ≡ answered_at (fit_answer image.now length) kept.old }
{
    cart_abi::gbasave_save_fit(image, length, kept)
}

#[unsafe(no_mangle)]
pub extern "C" fn gbasave_save_size(image: &[u8], size: &mut u32) -> u32
    ensures { (result, size.new) ≡ answered_at (size_answer image.now) size.old }
{
    cart_abi::gbasave_save_size(image, size)
}

#[unsafe(no_mangle)]
pub extern "C" fn gbasave_memory_size(kind: u32, size: &mut u32) -> u32
    ensures { (result, size.new) ≡ answered_at (memory_size_answer kind) size.old }
{
    cart_abi::gbasave_memory_size(kind, size)
}

#[unsafe(no_mangle)]
pub extern "C" fn gbasave_id_word(part: u32, kind: u32, word: &mut u32) -> u32
    ensures { (result, word.new) ≡ answered_at (id_word_answer part kind) word.old }
{
    cart_abi::gbasave_id_word(part, kind, word)
}
