// Tallies: one changed by a store, and what they answer.
ghost use Rattle.std.specs.Prelude.{◌≡◌, ◌≤◌, length, replicate};
ghost use Rattle.counts.specs.Tallies.{retally, blank, first_in_use, in_use_number};

// The answer of `first_in_use` where no stretch is in use.
// Kept: C is told a number, and the contract of `first_in_use` says which.
pub const NONE_IN_USE: u32 = 4294967295;

// Every tally becomes 0.
// Kept: the twin of `lists::fill`; both are the library's `fill`, each with its own promise and edit.
pub fn clear(tallies: &mut [u16])
    ensures { tallies.new ≡ replicate (length tallies.old) 0 }
{
    tallies.fill(0);
}

// A stretch's tally after a store, by the bytes in use before it and after it.
#[tactic(auto, unfolding(crate::specs::Tallies::retally))]
pub fn retally(tally: u16, before: u32, after: u32) -> u16
    requires { (before ≤ 4096) × (after ≤ 4096) }
    ensures { result ≡ retally before after tally }
{
    ((65536 + u32::from(tally) + after - before) % 65536) as u16
}

// The first stretch in use, numbered from 0.
pub fn first_in_use(tallies: &[u16]) -> u32
    requires { length tallies.now ≤ 32 }
    ensures { result ≡ in_use_number (first_in_use tallies.now) }
{
    match tallies.iter().position(|tally| *tally != 0) {
        Some(k) => k as u32,
        None => NONE_IN_USE,
    }
}

// Kept: by the search. `all` was tried and is slower where only the last stretch is in use, a sum where the first one
// is.
pub fn is_blank(tallies: &[u16]) -> bool
    requires { length tallies.now ≤ 32 }
    ensures { result ≡ blank tallies.now }
{
    first_in_use(tallies) == NONE_IN_USE
}
