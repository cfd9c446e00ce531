// Reads a recording from standard input, and prints all that its replay answers with.
#![tactic(auto)]

use recording_printout::{BYTES, NUMBERS, print_inspect};

// The number of standard input.
const STDIN_FILENO: i32 = 0;

// Reads until the room is full or the input ends, and prints.
fn main() {
    let mut bytes = [0u8; BYTES];
    let mut numbers = [0u32; NUMBERS];
    let n = io::read_full(STDIN_FILENO, &mut bytes);
    print_inspect(&bytes[..n], &mut numbers);
}
