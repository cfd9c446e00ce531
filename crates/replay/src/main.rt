// Reads a recording from standard input, and prints what was read and whether it was accepted.
#![tactic(auto)]

use recording_printout::{BYTES, NUMBERS, print_replay};

// The number of standard input.
const STDIN_FILENO: i32 = 0;

// Reads until the room is full or the input ends, and prints. As inspect does but for what is printed: one function for both would need a closure
// beside these lines, and be no shorter.
fn main() {
    let mut bytes = [0u8; BYTES];
    let mut numbers = [0u32; NUMBERS];
    let n = io::read_full(STDIN_FILENO, &mut bytes);
    print_replay(&bytes[..n], &mut numbers);
}
