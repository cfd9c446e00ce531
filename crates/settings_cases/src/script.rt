// The script: one line for each case, read byte by byte. Its words are explained at its head, in the file `stdin`.
ghost use Rattle.std.specs.Prelude.{◌<◌};

use crate::make::float_of;
use crate::show::{MOST, first_bytes, migrated, text, written};
use settings::{SETTINGS, Setting, Slot};

// Numbers have at most 19 digits, bits 16; the remainders only keep the sums from wrapping.
const DIGITS: u64 = 1000000000000000000;

const HEX_DIGITS: u64 = 0x1000_0000_0000_0000;

// Where in a line the script is: before it, or in a comment, the name or the words.
#[derive(Clone, Copy, Debug, PartialEq, Eq)]
enum Place {
    Start,
    Comment,
    Name,
    Words,
}

// A digit's number. The low four bits of the letter `a` are 1.
fn digit(c: u8) -> u8
    ensures { result < 16 }
{
    if c < b'a' { c % 16 } else { (c % 16 + 9) % 16 }
}

// A number with a digit more.
fn decimal(n: u64, c: u8) -> u64 {
    n % DIGITS * 10 + u64::from(digit(c))
}

// Bits with a digit more.
fn hexadecimal(n: u64, c: u8) -> u64 {
    n % HEX_DIGITS * 16 + u64::from(digit(c))
}

// What the script is at. Arrays with beside them how much of them is filled, since no heap is used.
#[derive(Clone, Copy)]
pub struct Desk {
    at: Place,
    // the word: its letter, and the number that follows
    letter: Option<u8>,
    value: u64,
    // the list to migrate, by its digits
    list: [u8; MOST],
    digits: usize,
    // what to write back: the settings, of which so many are given, how many, and into how many bytes
    settings: [Slot; SETTINGS],
    given: usize,
    number: usize,
    room: usize,
}

impl Desk {
    // Before a line.
    pub(crate) fn cleared() -> Desk {
        let nothing = Slot {
            setting: Setting::Count(0),
        };
        Desk {
            at: Place::Start,
            letter: None,
            value: 0,
            list: [0; MOST],
            digits: 0,
            settings: [nothing; SETTINGS],
            given: 0,
            number: 0,
            room: 0,
        }
    }

    // One byte of the script more.
    pub(crate) fn byte(&mut self, c: u8) {
        match (self.at, c) {
            (_, b'\n') => {
                self.done();
                self.ended();
            }
            (Place::Start, b'#') => self.at = Place::Comment,
            (Place::Start, _) => {
                self.at = Place::Name;
                self.named(c);
            }
            (Place::Comment, _) => {}
            (Place::Name, _) => self.named(c),
            (Place::Words, _) => self.worded(c),
        }
    }

    // A byte of the name, which is printed.
    fn named(&mut self, c: u8) {
        match c {
            b' ' => self.at = Place::Words,
            _ => text(&[c]),
        }
    }

    // A byte of the words. A zero byte is no letter.
    fn worded(&mut self, c: u8) {
        match (self.letter, c) {
            (_, b' ') => self.done(),
            (None | Some(0), _) => self.letter = Some(c),
            (Some(b'L'), _) => self.listed(c),
            (Some(b'N' | b'R'), _) => self.value = decimal(self.value, c),
            (Some(_), _) => self.value = hexadecimal(self.value, c),
        }
    }

    // A digit of the list: two are a byte.
    fn listed(&mut self, c: u8) {
        let k = self.digits / 2;
        if k < MOST {
            self.list[k] = self.list[k] % 16 * 16 + digit(c);
            self.digits += 1;
        }
    }

    // The end of a line.
    fn ended(&mut self) {
        if matches!(self.at, Place::Name | Place::Words) {
            text(b"\n");
        }
        *self = Desk::cleared();
    }

    // The end of a word.
    fn done(&mut self) {
        let letter = self.letter.take();
        let value = self.value;
        self.value = 0;
        match letter {
            Some(b'L') => migrated(first_bytes(&self.list, self.digits / 2)),
            Some(b'M') => self.added(Setting::Margin(float_of(value))),
            Some(b'F') => self.added(Setting::Feed(float_of(value))),
            Some(b'C') => self.added(Setting::Count(value)),
            Some(b'N') => self.number = value as usize,
            Some(b'R') => self.room = value as usize,
            Some(b'W') => written(self.settings, self.number, self.room),
            _ => {}
        }
    }

    // One setting more to write back.
    fn added(&mut self, setting: Setting) {
        if self.given < SETTINGS {
            self.settings[self.given] = Slot { setting };
            self.given += 1;
        }
    }
}

// The whole script.
pub(crate) fn play(script: &[u8]) {
    let mut desk = Desk::cleared();
    for c in script {
        desk.byte(*c);
    }
}
