// Bytes copied into a memory, and out of one into a file.
ghost use Rattle.std.specs.Prelude.{◌≡◌, ◌≤◌, length};
ghost use Rattle.lists.specs.Lists.{into};

// Room for the longest file.
fn room() -> [u8; 131072]
    ensures { length result ≡ 131072 }
{
    [0; 131072]
}

// `copy`, through an array that is distinct from both: the compiler removes the array, and one move of the whole is
// left.
// Kept: the twin of `lists::copy`, which alone compiles to a test for overlap and three loops.
pub fn copy_file(s: &mut [u8], output: &[u8])
    requires { (length output.now ≤ length s.old) × (length output.now ≤ 131072) }
    ensures { s.new ≡ into output.now s.old }
{
    let n = output.len();
    let mut held = room();
    lists::copy(&mut held[..], output);
    lists::copy(s, &held[..n]);
}
