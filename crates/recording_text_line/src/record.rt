// Records as lines say them.
ghost use Rattle.std.specs.Prelude.{◌≡◌, ◌∷◌, ◌++◌, ◌+◌, ◌<◌, ◌≤◌, eqb, length, take, get_or};
ghost use Rattle.recording_text_line.specs.Line.{sort, widest, Padded, ticks};
ghost use Rattle.recording_text_line.specs.Sorts.{sort_number};

use crate::sort::{Sort, sort_of};

// The most numbers that a record has: those of a link, and of a finish with its tick.
pub const NUMBERS: usize = 4;

// A record: its letter, which is known, and so many numbers for the writer, no more than a record of its sort has, zeros behind them. An array with
// its size beside it: memory is fixed. The size is a byte: as a number of eight it has a gap of seven bytes in front
// of it, which is copied with a record, by moves that overlap.
#[derive(Clone, Copy)]
pub struct Record {
    pub letter: u8,
    pub size: u8,
    pub numbers: [u32; NUMBERS],
    pub ghost known: { 0 < sort letter },
    pub ghost padded: { Padded letter size numbers },
    pub ghost four: { length numbers ≡ 4 },
}

impl Record {
    // A record with these numbers.
    pub(crate) fn of<const N: usize>(letter: u8, given: [u32; N]) -> Record
        requires known { 0 < sort letter }
        requires few { N ≤ widest (sort letter) }
        ensures letter { result.letter ≡ letter }
        ensures numbers { take result.size result.numbers ≡ given.entry }
    {
        let mut numbers = [0; NUMBERS];
        numbers[..N].copy_from_slice(&given);
        Record {
            letter,
            size: N as u8,
            numbers,
        }
    }

    // An event: its kind, its tick where it has one, and its own numbers.
    pub(crate) fn event<const N: usize>(
        letter: u8,
        kind: u32,
        tick: Option<u32>,
        own: [u32; N],
    ) -> Record
        requires sort { sort letter ≡ 3 }
        requires few { N ≤ 2 }
        ensures letter { result.letter ≡ letter }
        ensures numbers { take result.size result.numbers ≡ kind ∷ ticks tick ++ own.entry }
    {
        let mut numbers = [kind, 0, 0, 0];
        let at = match tick {
            Some(tick) => {
                numbers[1] = tick;
                2
            }
            None => 1,
        };
        numbers[at..at + N].copy_from_slice(&own);
        Record {
            letter,
            size: (at + N) as u8,
            numbers,
        }
    }

    // Whether it is of a sort.
    pub fn is(&self, wanted: Sort) -> bool
        ensures { result ≡ eqb (sort self.now.letter) (sort_number wanted) }
    {
        sort_of(self.letter) == Some(wanted)
    }

    // Its numbers.
    pub fn numbers(&self) -> &[u32]
        ensures { result.now ≡ take self.now.size self.now.numbers }
    {
        &self.numbers[..usize::from(self.size)]
    }

    // The first of them, 0 where it has none.
    pub fn first(&self) -> u32
        ensures { result ≡ get_or (take self.now.size self.now.numbers) 0 0 }
    {
        self.numbers[0]
    }
}
