// The files that a program's arguments name, for the programs that replay lists and traces.

#![tactic(auto)]

ghost use Rattle.std.specs.Prelude.{◌≡◌, length, IfOk, IfSome, OnErr};
ghost use Rattle.named_files.specs.Counts.{IsPrefixLen};

use std::env::FillError;
use std::io::Read;
use std::rt::{Env, Files};
use std::{fs, io};

// 4,096 zeros: room for any path.
pub fn buffer() -> [u8; 4096]
    ensures { 4096 ≡ length result }
{
    [0; 4096]
}

// Puts an argument at the front of the path and returns its length, or nothing if there are not so many. One that is
// longer than a path counts as empty.
pub fn argument(rt: &impl Env, k: usize, path: &mut [u8]) -> Option<usize>
    ensures { IfSome result (λ n. IsPrefixLen n path.new) }
{
    match rt.arg(k, path) {
        Ok(n) => Some(n),
        Err(FillError::TooLong) => Some(0),
        Err(FillError::NotPresent) => None,
    }
}

// The system's words, without the number that `io::Error` puts behind them.
fn words(text: &str) -> &str {
    text.split_once(" (os error ").unwrap_or((text, "")).0
}

// Says why a file is not read.
fn fail(rt: &(impl Eprint + Alloc), name: &str, error: io::Error) -> io::Result<()> {
    let text = format!(in rt.alloc(); "{error}")?;
    eprintln!(rt; "{name}: {}", words(text.as_str()))
}

// The file, or nothing and a line on the standard error. The system's library takes no path that is not UTF-8.
pub fn opened<R: Files + Eprint + Alloc>(rt: &R, path: &[u8]) -> io::Result<Option<R::File>> {
    let Ok(name) = str::from_utf8(path) else {
        fail(rt, "?", io::Error::from(io::ErrorKind::InvalidFilename))?;
        return Ok(None);
    };
    match fs::open(rt, name) {
        Ok(file) => Ok(Some(file)),
        Err(error) => {
            fail(rt, name, error)?;
            Ok(None)
        }
    }
}

// Reads until the room is full or the input ends, and returns how many bytes it put at the front.
pub fn read_full(input: &mut impl Read, room: &mut [u8]) -> io::Result<usize>
    ensures ok { IfOk result (λ n. IsPrefixLen n room.new) }
    ensures err { OnErr result (length room.new ≡ length room.old) }
{
    let mut done = 0;
    // Kept: the step is what a read gave, and `read_exact` refuses an input that ends before the room is full.
    while done < room.len() {
        let n = input.read(&mut room[done..])?;
        if n == 0 {
            break;
        }
        done += n;
    }
    Ok(done)
}
