// What is counted.
use crate::digits::pair;
use std::io;

// How many lines there were, how many of them differ, and how many have an answer, by the frame's number.
#[derive(Clone, Copy)]
pub struct Score {
    pub lines: u64,
    pub differ: u64,
    pub frames: [u64; 17],
}

fn number_of(frame: &[u8]) -> Option<u8> {
    match frame {
        [high, low, ..] => pair(*high, *low),
        _ => None,
    }
}

impl Score {
    pub fn new() -> Score {
        Score {
            lines: 0,
            differ: 0,
            frames: [0; 17],
        }
    }

    // One more line.
    pub fn count(&mut self, frame: &[u8], answered: bool) {
        self.lines = self.lines.wrapping_add(1);
        if !answered {
            return;
        }
        let Some(number) = number_of(frame) else {
            return;
        };
        if let Some(count) = self.frames.get_mut(usize::from(number)) {
            *count = count.wrapping_add(1);
        }
    }

    // One more difference.
    pub fn differs(&mut self) {
        self.differ = self.differ.wrapping_add(1);
    }

    pub fn print(&self, rt: &impl Print) -> io::Result<()> {
        for (number, count) in self.frames.iter().enumerate() {
            if *count != 0 {
                println!(rt; "frame {number:02X}: {count}")?;
            }
        }
        println!(rt; "{} answers replayed, {} differ", self.lines, self.differ)
    }
}
