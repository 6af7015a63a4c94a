// What an image's header says of its kind: its game code, and its title.
ghost use Rattle.std.specs.Prelude.{◌≡◌, ◌||◌, drop};
ghost use Rattle.kind.specs.Kind.{begins, sram_code, flash_code, ruby_title};

// Whether p stands at a place of s. Nothing stands past the end but a text of no bytes.
fn begins_at(s: &[u8], place: usize, p: &[u8]) -> bool
    ensures { result ≡ begins p.now (drop place s.now) }
{
    lists::begins(&s[place.min(s.len())..], p)
}

// One of three codes at ACh.
fn code_is(image: &[u8], a: &[u8], b: &[u8], c: &[u8]) -> bool
    ensures { result
        ≡ (begins a.now (drop 0xac image.now)
        || begins b.now (drop 0xac image.now)
        || begins c.now (drop 0xac image.now)) }
{
    begins_at(image, 0xAC, a) || begins_at(image, 0xAC, b) || begins_at(image, 0xAC, c)
}

pub fn sram_code(image: &[u8]) -> bool
    ensures { result ≡ sram_code image.now }
{
    code_is(image, b"GBXP", b"GBXJ", b"GBXE")
}

pub fn flash_code(image: &[u8]) -> bool
    ensures { result ≡ flash_code image.now }
{
    code_is(image, b"GB4P", b"GB4J", b"GB4E")
}

pub fn ruby_title(image: &[u8]) -> bool
    ensures { result ≡ ruby_title image.now }
{
    begins_at(image, 0xA0, b"POKEMON RUBY")
}
