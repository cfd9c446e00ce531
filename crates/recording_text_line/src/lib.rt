// What a line of a recording's text says, in a dated text or another: a record, nothing, or why it cannot be read.
#![tactic(auto)]

ghost use Rattle.std.specs.Prelude.{◌≡◌, List, [], ◌∷◌, ℕ, ◌<◌, ◌≤◌};
ghost use Rattle.recording_text_fields.specs.Faults.{told};
ghost use Rattle.recording_text_fields.specs.Left.{fields_left};
ghost use Rattle.recording_text_fields.specs.Numeral.{gathered};
ghost use Rattle.recording_text_line.specs.Line.{exactly, counted, widest, record_of, lettered, letter_of, event_says, tick_says, first_says, says, sort, ticks};
ghost use Rattle.recording_text_line.specs.Sorts.{sort_number};
ghost use Rattle.recording_text_line.specs.Told.{said_of, said_of_record, IsLetter};

use recording_text_fields::fault::Fault;
use recording_text_fields::number::{Numbers, handed_set, is_digit, number_of, numbers_of};
use recording_text_fields::piece::Fields;

pub mod record;
pub mod said;
pub mod sort;

pub use crate::record::NUMBERS;
use crate::record::Record;
pub use crate::said::{dated_after, is_dated};
use crate::sort::Sort;
pub use crate::sort::sort_of;

// The numbers of a line, where it has just so many.
fn exactly<const N: usize>(numbers: &Numbers) -> Result<[u32; N], Fault>
    requires { N ≤ 4 }
    ensures { (ns : List ℕ) → numbers.now ≡ gathered ns → told result ≡ exactly N ns }
{
    if numbers.count < N {
        return Err(Fault::TooFewNumbers);
    }
    if N < numbers.count {
        return Err(Fault::TooManyNumbers);
    }
    let mut these = [0; N];
    these.copy_from_slice(&numbers.first[..N]);
    Ok(these)
}

// A record of just so many numbers.
fn counted<const N: usize>(letter: u8, numbers: &Numbers) -> Result<Record, Fault>
    requires four { N ≤ 4 }
    requires known { 0 < sort letter }
    requires few { N ≤ widest (sort letter) }
    ensures { (ns : List ℕ) → numbers.now ≡ gathered ns → said_of_record result ≡ counted letter [] N ns }
{
    let own = exactly::<N>(numbers)?;
    Ok(Record::of(letter, own))
}

// An event of just so many numbers, behind its kind and its tick, where it has one.
fn counted_event<const N: usize>(
    letter: u8,
    kind: u32,
    tick: Option<u32>,
    numbers: &Numbers,
) -> Result<Record, Fault>
    requires few { N ≤ 2 }
    requires sort { sort letter ≡ 3 }
    ensures { (ns : List ℕ) → numbers.now ≡ gathered ns → said_of_record result ≡ counted letter (kind ∷ ticks tick) N ns }
{
    let own = exactly::<N>(numbers)?;
    Ok(Record::event(letter, kind, tick, own))
}

// The record of a letter, a tick, where there is one, and the numbers behind them; in a dated text a task has its relative deadline too. In line: a record
// is then made in the place where it is handed on.
#[tactic(auto, unfolding(crate::specs::Line::sort, crate::specs::Line::record_of))]
#[inline(always)]
fn record_of(dated: bool, tick: Option<u32>, letter: u8, numbers: &Numbers) -> Result<Record, Fault>
    requires { 0 < sort letter }
    ensures { (ns : List ℕ) → numbers.now ≡ gathered ns → said_of_record result ≡ record_of dated (ticks tick) letter ns }
{
    match letter {
        b'A' => Ok(Record::event(letter, 1, tick, [handed_set(numbers.set)])),
        b'S' => counted_event::<1>(letter, 2, tick, numbers),
        b'R' => counted_event::<1>(letter, 3, tick, numbers),
        b'F' => counted_event::<2>(letter, 4, tick, numbers),
        b'L' => counted::<4>(letter, numbers),
        b'T' if dated => counted::<2>(letter, numbers),
        _ => counted::<1>(letter, numbers),
    }
}

// The letter that a field is, and the sort of its records.
#[tactic(auto, unfolding(crate::specs::Line::sort))]
fn letter_in(field: &[u8]) -> Option<(u8, Sort)>
    ensures { IsLetter result (letter_of field.now) }
{
    let [letter] = field else {
        return None;
    };
    Some((*letter, sort_of(*letter)?))
}

// What a letter and the fields behind it say, behind a tick or with none. In line, where it is known which.
#[inline(always)]
fn letter_says(dated: bool, tick: Option<u32>, letter: u8, fields: Fields) -> Result<Record, Fault>
    requires { 0 < sort letter }
    ensures { said_of_record result ≡ lettered dated (ticks tick) letter (fields_left fields.entry) }
{
    let numbers = numbers_of(fields)?;
    record_of(dated, tick, letter, &numbers)
}

// What the fields behind a tick say.
#[tactic(auto, unfolding(crate::specs::Line::event_says))]
fn event_says(tick: u32, mut fields: Fields) -> Result<Record, Fault>
    ensures { said_of_record result ≡ event_says tick (fields_left fields.entry) }
{
    let Some(field) = fields.next() else {
        return Err(Fault::UnknownWord);
    };
    match letter_in(field) {
        Some((letter, Sort::Event)) => letter_says(true, Some(tick), letter, fields),
        _ => Err(Fault::UnknownWord),
    }
}

// What a first field that is a tick and those behind it say.
#[tactic(auto, unfolding(crate::specs::Line::tick_says))]
fn tick_says(first: &[u8], fields: Fields) -> Result<Record, Fault>
    ensures { said_of_record result ≡ tick_says first.now (fields_left fields.entry) }
{
    event_says(number_of(first)?, fields)
}

// What a first field and those behind it say. Never in line: a line with no record, as most of a text may be, then makes no room for one.
#[tactic(auto, unfolding(crate::specs::Line::letter_says))]
#[inline(never)]
fn first_says(dated: bool, first: &[u8], fields: Fields) -> Result<Record, Fault>
    ensures { said_of_record result ≡ first_says dated first.now (fields_left fields.entry) }
{
    match first {
        [b, ..] if dated && is_digit(*b) => tick_says(first, fields),
        _ => match letter_in(first) {
            // In a dated text an event begins with its tick.
            Some((_, Sort::Event)) if dated => Err(Fault::UnknownWord),
            Some((letter, _)) => letter_says(dated, None, letter, fields),
            None => Err(Fault::UnknownWord),
        },
    }
}

// What a line says, in a dated text or another. In line in the loops over lines.
#[tactic(auto, unfolding(crate::specs::Line::fields_say))]
#[inline(always)]
pub fn line_says(line: &[u8], dated: bool) -> Result<Option<Record>, Fault>
    ensures { said_of result ≡ says dated line.now }
{
    let mut fields = Fields::of(line);
    match fields.next() {
        None | Some([b'#', ..]) => Ok(None),
        Some(first) => Ok(Some(first_says(dated, first, fields)?)),
    }
}
