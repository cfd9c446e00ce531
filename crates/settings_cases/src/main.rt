// The settings migrator by cases: reads them from standard input, one line each, and prints what came back.
//
// The file `stdin` has the cases and says how a line is written; the file `stdout` has the answers, worked out from request 2026-13 and not
// by this program. A list's answer: REFUSAL PLACE NUMBER, the settings up to the number, each as its kind's letter and its bits, and then
// `zeros` where every slot past the number is a count of 0. The answer of writing back: REFUSAL PLACE, the bytes written, and then `kept`
// where every byte of the buffer past them is as it was before.
// Three words more would tell of a fault, and stand in no right answer: `filled` for `zeros`, `touched` for `kept`, and `nan` for bits.
#![tactic(auto)]

mod make;
mod script;
mod show;

// The number of standard input.
const STDIN_FILENO: i32 = 0;

fn main() {
    let mut script = io::large_buffer();
    let n = io::read_full(STDIN_FILENO, &mut script);
    script::play(&script[..n]);
}
