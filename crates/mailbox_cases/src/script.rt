// The script: one line for each case, read byte by byte. Its words are explained at its head, in the file `stdin`.
use crate::make::{Table, spoil};
use crate::show::{answered, made, past, text};
use mailbox::{State, Step};
use mailbox_event::{Event, When};

// Numbers have at most 19 digits; the remainder only keeps the sum from wrapping.
const DIGITS: u64 = 1000000000000000000;

// A word of a line: a letter, 0 before it, and at most four numbers with commas between, the last one in `z`. A byte of the script that is 0 is no
// letter, so an Option would say no more.
#[derive(Clone, Copy)]
pub struct Word {
    letter: u8,
    w: u64,
    x: u64,
    y: u64,
    z: u64,
}

impl Word {
    fn none() -> Word {
        Word {
            letter: 0,
            w: 0,
            x: 0,
            y: 0,
            z: 0,
        }
    }

    // One byte more: the letter, a comma, or a digit, whose low four bits are its number.
    fn spelled(&mut self, c: u8) {
        match (self.letter, c) {
            (0, _) => self.letter = c,
            (_, b',') => {
                self.w = self.x;
                self.x = self.y;
                self.y = self.z;
                self.z = 0;
            }
            _ => self.z = self.z % DIGITS * 10 + u64::from(c % 16),
        }
    }
}

// The numbers of a word as a state and an event have them: what is too large is cut, where `try_from` would refuse it.
fn narrow(n: u64) -> u8 {
    (n % 256) as u8
}

fn short(n: u64) -> u16 {
    (n % 65536) as u16
}

fn number(n: u64) -> u32 {
    (n % 4294967296) as u32
}

// What the script is at.
#[derive(Clone, Copy)]
pub struct Desk {
    table: Table,
    // the state that each line begins with
    base: State,
    now: State,
    // when the events of the line are handed over
    when: When,
    // the first byte of the line, 0 before it: as in a word, a byte that is 0 is none
    line: u8,
    naming: bool,
    word: Word,
}

impl Desk {
    // Before the first line.
    pub(crate) fn cleared() -> Desk {
        Desk {
            table: Table::of(1),
            base: State::single(),
            now: State::single(),
            when: When::Untimed,
            line: 0,
            naming: false,
            word: Word::none(),
        }
    }

    // One byte of the script more.
    pub(crate) fn byte(&mut self, c: u8) {
        match (c, self.line) {
            (b'\n', _) => {
                self.done();
                self.ended();
            }
            (_, 0) => self.begun(c),
            (_, b'#') => {}
            _ if self.naming => self.named(c),
            (b' ', _) => self.done(),
            _ => self.word.spelled(c),
        }
    }

    // The first byte of a line says what becomes of it; a name follows. No tick holds from one line to the next.
    fn begun(&mut self, c: u8) {
        self.when = When::Untimed;
        self.line = c;
        self.naming = true;
    }

    // Whether the line is printed.
    fn shown(&self) -> bool {
        matches!(self.line, b'=' | b'?')
    }

    // A byte of the name.
    fn named(&mut self, c: u8) {
        if c == b' ' {
            self.naming = false;
        } else if self.shown() {
            text(&[c]);
        }
    }

    // The end of a line: `?` goes back to the state before it.
    fn ended(&mut self) {
        if self.shown() {
            text(b"\n");
        }
        if self.line == b'?' {
            self.now = self.base;
        } else {
            self.base = self.now;
        }
        self.line = 0;
    }

    // The end of a word.
    fn done(&mut self) {
        let word = self.word;
        self.word = Word::none();
        match word.letter {
            b'T' => self.table = Table::of(word.z as usize),
            b'L' => self.table.link(
                narrow(word.w),
                narrow(word.x),
                narrow(word.y),
                number(word.z),
            ),
            b'C' => self.table.count(word.z as usize),
            b'D' => self.table.deadline(word.y as usize, short(word.z)),
            b'M' => self.made(),
            b'A' => self.given(Event::Arrival(number(word.z))),
            b'S' => self.given(Event::Start(narrow(word.z))),
            b'R' => self.given(Event::Read(narrow(word.z))),
            b'F' => self.given(Event::Finish(narrow(word.y), number(word.z))),
            b'@' => self.when = When::At(number(word.z)),
            b'J' => self.looked(),
            _ => spoil(&mut self.now, word.letter, word.y as usize, number(word.z)),
        }
    }

    // The fresh state of the table.
    fn made(&mut self) {
        let m = self.table.made();
        if self.shown() {
            made(&m);
        }
        self.now = m.state;
    }

    // An event given to the state.
    fn given(&mut self, e: Event) {
        let step = called(self.now, self.when, e);
        if self.shown() {
            answered(&self.now, self.when, e, &step);
        }
        self.now = step.state;
    }

    // What stands past the counts.
    fn looked(&self) {
        if self.shown() {
            past(&self.now);
        }
    }
}

// The event given to the state by the method of its kind, without a tick or at one.
fn called(s: State, when: When, e: Event) -> Step {
    match (when, e) {
        (When::Untimed, Event::Arrival(set)) => s.arrival(set),
        (When::Untimed, Event::Start(t)) => s.start(t),
        (When::Untimed, Event::Read(l)) => s.read(l),
        (When::Untimed, Event::Finish(t, value)) => s.finish(t, value),
        (When::At(tick), Event::Arrival(set)) => s.arrival_at(tick, set),
        (When::At(tick), Event::Start(t)) => s.start_at(tick, t),
        (When::At(tick), Event::Read(l)) => s.read_at(tick, l),
        (When::At(tick), Event::Finish(t, value)) => s.finish_at(tick, t, value),
    }
}

// The whole script.
pub(crate) fn play(script: &[u8]) {
    let mut desk = Desk::cleared();
    for c in script {
        desk.byte(*c);
    }
}
