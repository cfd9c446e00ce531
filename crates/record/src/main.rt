// Reads the text form of a recording from standard input, and writes the recording, or tells why there is none.
#![tactic(auto)]

use record_printout::{TEXT, print_recording};

// The number of standard input.
const STDIN_FILENO: i32 = 0;

// Room for the longest text and one byte more, so that a longer one is seen. It comes from a function of its own, so that no proof counts it.
fn room() -> [u8; TEXT + 1] {
    [0u8; TEXT + 1]
}

// Reads until the room is full or the input ends, and writes.
fn main() {
    let mut bytes = room();
    let n = io::read_full(STDIN_FILENO, &mut bytes);
    print_recording(&bytes[..n]);
}
