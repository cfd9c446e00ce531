// The mailbox core by cases: reads them from standard input, one line each, and prints what came back.
//
// The file `stdin` has the cases and says how a line is written; the file `stdout` has the answers, worked out from documents 01 and 02 and not
// by this program. An event's answer: REFUSAL VALUE, then `same` where the state handed back is the lent one in every slot; else `changed`,
// phase, newest, previous and seen of each task, pointer and mark of each link, with deadlines also the arrival tick of each task and the last
// tick, and `cell TASK POSITION NUMBER` where a position holds another number.
// Two words more would tell of a fault, and stand in no right answer: `table` where an event changed the table or the defaults, `apart` where
// the event's own method, the event as a value and `sound` do not agree.
// A table's answer: REFUSAL TASKS LINKS, then `single` where the state is a single task's; else its links, its deadlines if it has them, the
// fresh state, and its defaults and cells where they aren't 0. `past`: the largest number past the counts in phase, newest, previous, seen,
// writer, reader, kind, start value, pointer and mark, with deadlines also in deadline and arrival tick.
#![tactic(auto)]

mod fields;
mod make;
mod script;
mod show;

// The number of standard input.
const STDIN_FILENO: i32 = 0;

fn main() {
    let mut script = io::large_buffer();
    let n = io::read_full(STDIN_FILENO, &mut script);
    script::play(&script[..n]);
}
