// The replay for C programs: one export, which calls the library's function.

#![tactic(auto)]

ghost use Rattle.std.specs.Prelude.{◌≡◌};
ghost use Rattle.replay.specs.Replay.{replay};

// Returns 0 or a refusal's number. A refused call changes nothing.
#[unsafe(no_mangle)]
pub extern "C" fn gbasave_replay(
    image: &[u8],
    part: u32,
    list: &[u8],
    memory: &mut [u8],
    scratch: &mut [u8],
    out: &mut [u8],
) -> u32
    ensures { (result, memory.new, scratch.new, out.new)
        ≡ replay image.now part list.now
        memory.old scratch.old out.old }
{
    replay::gbasave_replay(image, part, list, memory, scratch, out)
}
