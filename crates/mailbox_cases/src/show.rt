// What is printed of tables, states and answers.
use crate::fields::{InState, same_table};
use mailbox::{Made, State, Step};
use mailbox_base::numbers::POSITIONS;
use mailbox_event::{Event, When, policy_for};

// The number of standard output.
const STDOUT_FILENO: i32 = 1;

// What is printed past the counts of tasks, and of links.
const BY_TASK: [InState; 4] = [
    InState::Phase,
    InState::Newest,
    InState::Previous,
    InState::Seen,
];

const BY_LINK: [InState; 6] = [
    InState::Writer,
    InState::Reader,
    InState::Kind,
    InState::StartValue,
    InState::Pointer,
    InState::Mark,
];

pub(crate) fn text(s: &[u8]) {
    io::write_all(STDOUT_FILENO, s);
}

fn number(n: u64) {
    text(b" ");
    io::print_decimal(STDOUT_FILENO, n);
}

// The first `n` of a field.
fn list(label: &[u8], s: &State, field: InState, n: usize) {
    text(label);
    for i in 0..n {
        number(u64::from(field.entry(s, i)));
    }
}

// The largest number of a field from `n` on.
fn largest(s: &State, field: InState, n: usize) -> u32 {
    (n..field.size())
        .map(|i| field.entry(s, i))
        .max()
        .unwrap_or(0)
}

// The name of entry `i` of the cells or the defaults: a task and one of its positions, or a task.
fn place(field: InState, i: usize) {
    if field == InState::Cell {
        text(b" cell");
        number((i / POSITIONS) as u64);
        number((i % POSITIONS + 1) as u64);
    } else {
        text(b" default");
        number(i as u64);
    }
}

// The entries of a field that hold another number than before.
fn entries(before: &State, after: &State, field: InState) {
    for i in 0..field.size() {
        let now = field.entry(after, i);
        if now != field.entry(before, i) {
            place(field, i);
            number(u64::from(now));
        }
    }
}

// Phases, newest, previous and seen of its tasks, pointers and marks of its links; with deadlines, the arrival ticks of its tasks and the last
// tick too.
fn boxes(s: &State) {
    list(b" phase", s, InState::Phase, s.tasks);
    list(b" newest", s, InState::Newest, s.tasks);
    list(b" previous", s, InState::Previous, s.tasks);
    list(b" seen", s, InState::Seen, s.tasks);
    list(b" pointer", s, InState::Pointer, s.links);
    list(b" mark", s, InState::Mark, s.links);
    if s.policy() != 0 {
        list(b" since", s, InState::Since, s.tasks);
        list(b" last", s, InState::Last, 1);
    }
}

// Writers, readers, kinds and start values of its links, and the relative deadlines of its tasks where it has them.
fn ends(s: &State) {
    list(b" writer", s, InState::Writer, s.links);
    list(b" reader", s, InState::Reader, s.links);
    list(b" kind", s, InState::Kind, s.links);
    list(b" start-value", s, InState::StartValue, s.links);
    if s.policy() != 0 {
        list(b" deadline", s, InState::Deadline, s.tasks);
    }
}

// The largest number past the counts in phase, newest, previous, seen, writer, reader, kind, start value, pointer and mark; with deadlines, in
// deadline and arrival tick too.
pub(crate) fn past(s: &State) {
    text(b" past");
    for field in BY_TASK {
        number(u64::from(largest(s, field, s.tasks)));
    }
    for field in BY_LINK {
        number(u64::from(largest(s, field, s.links)));
    }
    if s.policy() != 0 {
        number(u64::from(largest(s, InState::Deadline, s.tasks)));
        number(u64::from(largest(s, InState::Since, s.tasks)));
    }
}

// What a table made.
pub(crate) fn made(m: &Made) {
    let s = &m.state;
    let single = State::single();
    number(u64::from(m.refusal));
    number(s.tasks as u64);
    number(s.links as u64);
    if *s == single {
        text(b" single");
    } else {
        ends(s);
        boxes(s);
        entries(&single, s, InState::Default);
        entries(&single, s, InState::Cell);
    }
    past(s);
}

// What an event changed.
fn changed(before: &State, after: &State) {
    if before == after {
        text(b" same");
    } else {
        text(b" changed");
        boxes(after);
        entries(before, after, InState::Cell);
    }
    if !same_table(before, after) {
        text(b" table");
    }
}

// An event given to the state as a value.
fn given(s: State, when: When, e: Event) -> Step {
    match when {
        When::Untimed => s.event(e),
        When::At(tick) => s.event_at(tick, e),
    }
}

// The answer to an event, and `apart` where the ways to ask differ: the event as a value, its own method, and `sound`, as 19 is answered where
// the state is not sound or of the other policy.
pub(crate) fn answered(s: &State, when: When, e: Event, step: &Step) {
    let answer = step.answer;
    number(u64::from(answer.refusal));
    number(u64::from(answer.value));
    changed(s, &step.state);
    let takes = s.sound() && s.policy() == policy_for(when);
    if *step != given(*s, when, e) || takes == (answer.refusal == 19) {
        text(b" apart");
    }
}
