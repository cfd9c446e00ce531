// The smallest use of the mailbox core: two tasks, and the second, less urgent, reads the first by a direct link.
#![tactic(auto)]

use mailbox::{Answer, State};

// The number of standard output.
const STDOUT_FILENO: i32 = 1;

// What the second task's read answers, where both arrive and the first finishes with 101; or the table's refusal.
fn passed_on() -> Answer {
    // link 0 goes from task 0 to task 1, directly
    let writer = [0u8; State::LINKS];
    let mut reader = [0u8; State::LINKS];
    reader[0] = 1;
    // a direct link has no start value: 0 stands there. A delayed one would read its own until its writer's second arrival
    let start_value = [0u32; State::LINKS];
    let made = State::fresh(
        2,
        1,
        [0u32; State::TASKS],
        writer,
        reader,
        [0u8; State::LINKS],
        start_value,
    );
    if made.refusal != 0 {
        return Answer {
            refusal: made.refusal,
            value: 0,
        };
    }
    // both arrive: bit t is task t
    let arrived = made.state.arrival(3);
    let started = arrived.state.start(0);
    let finished = started.state.finish(0, 101);
    let next = finished.state.start(1);
    // an event that was refused changed nothing, so the last answer tells: 15, had task 1 not been let run
    next.state.read(0).answer
}

fn main() {
    let answer = passed_on();
    if answer.refusal == 0 {
        io::print_decimal(STDOUT_FILENO, u64::from(answer.value));
    } else {
        io::write_all(STDOUT_FILENO, b"refused ");
        io::print_decimal(STDOUT_FILENO, u64::from(answer.refusal));
    }
    io::write_all(STDOUT_FILENO, b"\n");
}
