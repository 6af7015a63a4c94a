// The five markers in every order of first appearance, in slots of 16 bytes: the kind does not depend on it.
ghost use Rattle.std.specs.Prelude.{◌≤◌};

use crate::searches::print_searches;
use crate::{MARKERS, put};
use std::io;

fn order(rt: &impl Print, texts: [&[u8]; 5]) -> io::Result<()> {
    let mut image = [0u8; 256];
    print!(rt; "order")?;
    for (slot, text) in texts.iter().enumerate() {
        put(&mut image, 16 * slot, text);
        print!(rt; " ")?;
        rt.write_all(text)?;
    }
    print_searches(rt, &image)
}

// Every order of the texts from a place on: each of them comes there in turn.
fn orders_from(rt: &impl Print, texts: [&[u8]; 5], place: usize) -> io::Result<()>
    requires { place ≤ 5 }
{
    if place == 5 {
        return order(rt, texts);
    }
    for chosen in place..5 {
        let mut next = texts;
        next[place..=chosen].rotate_right(1);
        orders_from(rt, next, place + 1)?;
    }
    Ok(())
}

// All five; then without those that would decide, with a `-` in their slots.
pub fn orders(rt: &impl Print) -> io::Result<()> {
    let mut texts = MARKERS;
    // Kept: the place is also the one from which on the orders differ.
    for place in 0..4 {
        orders_from(rt, texts, place)?;
        texts[place] = b"-";
    }
    Ok(())
}
