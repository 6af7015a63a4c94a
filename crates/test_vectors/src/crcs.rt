// Vectors of the CRC. Byte i of the bytes is (7 × i + i / 256) mod 256.
ghost use Rattle.std.specs.Prelude.{◌≡◌, ◌+◌, ◌≤◌, length};

use std::io;

fn make_bytes(s: &mut [u8])
    ensures { length s.new ≡ length s.old }
{
    for (i, byte) in s.iter_mut().enumerate() {
        *byte = ((i % 256 * 7 + i / 256) % 256) as u8;
    }
}

fn crc(rt: &impl Print, text: &str) -> io::Result<()> {
    let crc = crc::crc32(text.as_bytes());
    println!(rt; "crc {text}: {crc:08X}")
}

// So many bytes, from each of the first eight places on.
fn crcs_of(rt: &impl Print, s: &[u8], n: usize) -> io::Result<()>
    requires { n + 7 ≤ length s.now }
{
    print!(rt; "crc of {n} bytes:")?;
    for place in 0..8 {
        let crc = crc::crc32(&s[place..place + n]);
        print!(rt; " {crc:08X}")?;
    }
    println!(rt)
}

fn short_crcs(rt: &impl Print, s: &[u8]) -> io::Result<()>
    requires { 207 ≤ length s.now }
{
    for n in 0..201 {
        crcs_of(rt, s, n)?;
    }
    Ok(())
}

// The end of a lane or of a block.
fn crcs_around(rt: &impl Print, s: &[u8], n: usize) -> io::Result<()>
    requires { (1 ≤ n) × (n + 8 ≤ length s.now) }
{
    for near in n - 1..n + 2 {
        crcs_of(rt, s, near)?;
    }
    Ok(())
}

// Parts of so many bytes; the last has what is left.
fn fed_in_parts(s: &[u8], n: usize) -> u32
    requires { 1 ≤ n }
{
    let mut c = crc::crc_start();
    for part in s.chunks(n) {
        c = crc::crc_feed(c, part);
    }
    // Parts that end with the bytes are followed by one of no bytes.
    crc::crc_finish(crc::crc_feed(c, b""))
}

fn long_crcs(rt: &impl Print, s: &[u8]) -> io::Result<()>
    requires { 131072 ≤ length s.now }
{
    for n in [4096, 8192, 28672, 32768, 36864, 65536, 98304, 102400] {
        crcs_around(rt, s, n)?;
    }
    Ok(())
}

fn crcs_in_parts(rt: &impl Print, s: &[u8]) -> io::Result<()> {
    for n in [1, 7, 512, 32767, 32768, 32769, 100000, 131072, 131073] {
        let crc = fed_in_parts(s, n);
        println!(rt; "crc in parts of {n}: {crc:08X}")?;
    }
    Ok(())
}

pub fn crcs(rt: &impl Print) -> io::Result<()> {
    crc(rt, "")?;
    crc(rt, "123456789")?;
    let mut s = [0; 131072];
    make_bytes(&mut s);
    short_crcs(rt, &s)?;
    long_crcs(rt, &s)?;
    crcs_in_parts(rt, &s)
}
