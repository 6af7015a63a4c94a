// Buffers for `run_trace`. Each `ensures` gives the length, which is needed to pass an array as a slice.
// Kept: not one function with a const parameter, since a name says what a room is for and a number at a call does not.
ghost use Rattle.std.specs.Prelude.{◌≡◌, length};

// For a trace: one character more than the longest, so that a longer one shows.
pub fn trace_room() -> [u8; 500001]
    ensures { 500001 ≡ length result }
{
    [0; 500001]
}

// For the save memory of any kind.
pub fn room() -> [u8; 131072]
    ensures { 131072 ≡ length result }
{
    [0; 131072]
}

// For the list of the longest trace, or for its answers.
pub fn large_room() -> [u8; 262144]
    ensures { 262144 ≡ length result }
{
    [0; 262144]
}

// For what is printed: two digits a byte of the answers, and at most three characters a line.
pub fn output_room() -> [u8; 2097152]
    ensures { 2097152 ≡ length result }
{
    [0; 2097152]
}
