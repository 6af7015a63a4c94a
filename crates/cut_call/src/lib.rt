// A cut that carries layout 2, made by the real calls: export and `chip_state`, then opening, load and restore.

#![tactic(auto)]

ghost use Rattle.std.specs.Prelude.{◌≡◌, true, ◌≤◌, length};
ghost use Rattle.kind.specs.Kind.{memory_size};
ghost use Rattle.cart.specs.Record.{record_allowed};
ghost use Rattle.chip_record.specs.States.{twenty};
ghost use Rattle.cart.specs.Cut.{cut};
ghost use Rattle.cart.specs.Replies.{tallied};
ghost use Rattle.cut_call.specs.Loads.{loaded_from, resumed};

use cart::Cartridge;
use chip_record::STATE_SIZE;

// An empty file means that there is none.
fn load_where_there_is_one(
    cart: Cartridge,
    memory: &mut [u8],
    tallies: &mut [u16],
    file: &[u8],
) -> Cartridge
    ensures { tallied result memory.new tallies.new
        ≡ loaded_from file.now (tallied cart memory.old tallies.old) }
{
    if file.is_empty() {
        return cart;
    }
    cart::record_after(cart, file_calls::load_save(cart, memory, tallies, file))
}

// Opens the same image with the same part, loads the file and restores the chip.
fn resume(
    image: &[u8],
    part: u32,
    memory: &mut [u8],
    tallies: &mut [u16],
    file: &[u8],
    bytes: &[u8],
) -> Cartridge
    ensures { tallied result memory.new tallies.new
        ≡ resumed image.now part memory.old tallies.old
        file.now bytes.now }
{
    let opened = state_calls::from_number(image, part, memory, tallies);
    let fresh = cart::record_after(state_calls::no_cart(), opened);
    let loaded = load_where_there_is_one(fresh, memory, tallies, file);
    cart::record_after(loaded, state_calls::restore_chip_state(loaded, bytes))
}

// The scratch holds the file between export and load.
pub fn cut(
    image: &[u8],
    part: u32,
    cart: Cartridge,
    memory: &mut [u8],
    tallies: &mut [u16],
    scratch: &mut [u8],
) -> Cartridge
    requires cart_value { record_allowed cart ≡ true }
    requires memory_len { length memory.old ≡ memory_size cart.kind }
    requires memory_in_bounds { length memory.old ≤ length scratch.old }
    ensures { let m = memory.old in
        let ts = tallies.old in
        tallied result memory.new tallies.new
        ≡ cut image.now part m ts twenty (tallied cart m ts) }
{
    let n = memory.len();
    let exported = file_calls::save_data(cart, memory, &mut scratch[..n]);
    let len = cart::value_of(exported) as usize;
    let bytes = state_calls::chip_state(cart).unwrap_or([0; STATE_SIZE]);
    resume(image, part, memory, tallies, &scratch[..len], &bytes)
}
