// Reads an old station's settings list from standard input, and prints its settings or why it is refused.
#![tactic(auto)]

use settings_printout::{BYTES, print_migration};

// The number of standard input.
const STDIN_FILENO: i32 = 0;

// Reads until the room is full or the input ends, and prints.
fn main() {
    let mut bytes = [0u8; BYTES];
    let n = io::read_full(STDIN_FILENO, &mut bytes);
    print_migration(&bytes[..n]);
}
