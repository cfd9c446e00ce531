// The line of a record that the writer refuses, in the text of a recording.
#![tactic(auto)]

ghost use Rattle.std.specs.Prelude.{◌≡◌, ◌-◌, eqb};
ghost use Rattle.recording_text_line.specs.Line.{sort, text_says};
ghost use Rattle.recording_text_line.specs.Sorts.{sort_number};
ghost use Rattle.recording_text_line.specs.Told.{said_of};
ghost use Rattle.recording_text_place.specs.Place.{bytes_of, all_bytes, weight, step, line_after, after_last, kind_or_task, line_of};

use recording_format::{LINK_SIZE, TASK_PLACE, WhichKind};
use recording_text_fields::fault::Fault;
use recording_text_line::record::Record;
use recording_text_line::said::Said;
use recording_text_line::sort::Sort;

// What stands before the tasks: the first byte, and T.
const BEFORE_TASKS: usize = TASK_PLACE + 1;

// Before the links, besides the tasks: L too.
const BEFORE_LINKS: usize = BEFORE_TASKS + 1;

// And before the events, besides the tasks and the links: E too.
const BEFORE_EVENTS: usize = BEFORE_LINKS + 2;

// What is counted on the way to a record: records, or their bytes in a recording of a kind.
#[derive(Clone, Copy)]
pub enum Measure {
    Records,
    Bytes(WhichKind),
}

// The bytes of a task, a link or an event in a recording of a kind, by its letter.
#[tactic(auto, unfolding(crate::specs::Place::bytes_of))]
fn bytes_of(which: WhichKind, letter: u8) -> usize
    ensures { result ≡ bytes_of which letter }
{
    let tick = which.tick_size();
    match letter {
        b'T' => 4 + which.deadline_size(),
        b'L' => LINK_SIZE,
        b'F' => 6 + tick,
        b'S' | b'R' => 2 + tick,
        _ => 1 + tick + which.set_size(),
    }
}

impl Measure {
    // What a record of a letter counts.
    fn of(self, letter: u8) -> usize
        ensures { result ≡ weight self letter }
    {
        match self {
            Measure::Records => 1,
            Measure::Bytes(which) => bytes_of(which, letter),
        }
    }
}

// What a line counts: one for its record, or its bytes; nothing where it has no record of the sort.
#[tactic(auto, unfolding(recording_text_line::specs::Line::sort))]
fn counts(measure: Measure, wanted: Sort, said: &Result<Option<Record>, Fault>) -> usize
    ensures { result ≡ step measure (sort_number wanted) (said_of said.now).letter }
{
    match said {
        Ok(Some(record)) if record.is(wanted) => measure.of(record.letter),
        _ => 0,
    }
}

// What is left of a number of bytes behind all records of a sort.
#[tactic(auto, unfolding(crate::specs::Place::all_bytes))]
fn behind(text: &[u8], which: WhichKind, wanted: Sort, bytes: usize) -> usize
    ensures { result ≡ bytes - all_bytes which (sort_number wanted) (text_says text.now) }
{
    let mut much = bytes;
    for said in Said::of(text) {
        much = much.saturating_sub(counts(Measure::Bytes(which), wanted, &said));
    }
    much
}

// Whether a line has a record of a sort.
#[tactic(auto, unfolding(recording_text_line::specs::Line::sort))]
fn has(said: &Result<Option<Record>, Fault>, wanted: Sort) -> bool
    ensures { result ≡ eqb (sort (said_of said.now).letter) (sort_number wanted) }
{
    matches!(said, Ok(Some(record)) if record.is(wanted))
}

// The line of the first record of a sort before which so much stands; the line after the last where there is none.
#[tactic(auto, using(recording_text_line::proofs::Lines::lines_few), unfolding(crate::specs::Place::line_after))]
fn line_after(text: &[u8], measure: Measure, wanted: Sort, before: usize) -> usize
    ensures { result ≡ line_after measure (sort_number wanted) before 1 (text_says text.now) }
{
    let mut much = before;
    let mut line = 1;
    for said in Said::of(text) {
        if much == 0 && has(&said, wanted) {
            return line;
        }
        much = much.saturating_sub(counts(measure, wanted, &said));
        line += 1;
    }
    line
}

// The line after the last.
#[tactic(auto, using(recording_text_line::proofs::Lines::lines_few))]
fn after_last(text: &[u8]) -> usize
    ensures { result ≡ after_last (text_says text.now) }
{
    Said::of(text).count() + 1
}

// The line of refusal 2: at place 0 that of the kind, elsewhere that of the first task past the limit.
#[tactic(auto, unfolding(crate::specs::Place::kind_or_task))]
fn kind_or_task(text: &[u8], which: WhichKind, place: usize) -> usize
    ensures { result ≡ kind_or_task which place (text_says text.now) }
{
    if place == 0 {
        line_after(text, Measure::Records, Sort::Kind, 0)
    } else {
        line_after(text, Measure::Records, Sort::Task, which.most_tasks())
    }
}

// The line of a refusal in the text of a recording of a kind. The refusal is a number, as the writer's answer has it.
#[tactic(auto, unfolding(crate::specs::Place::refusal_line))]
pub fn refusal_line(text: &[u8], which: WhichKind, refusal: u8, place: usize) -> usize
    ensures { result ≡ line_of which text.now refusal place }
{
    match refusal {
        // the rules of links
        4..=9 | 20 => {
            let past_tasks = behind(text, which, Sort::Task, place.saturating_sub(BEFORE_LINKS));
            line_after(text, Measure::Bytes(which), Sort::Link, past_tasks)
        }
        // those of events
        12..=16 | 21..=23 => {
            let past_tasks = behind(text, which, Sort::Task, place.saturating_sub(BEFORE_EVENTS));
            let past_links = behind(text, which, Sort::Link, past_tasks);
            line_after(text, Measure::Bytes(which), Sort::Event, past_links)
        }
        2 => kind_or_task(text, which, place),
        3 => line_after(text, Measure::Records, Sort::Link, which.most_links()),
        10 => line_after(text, Measure::Records, Sort::Event, which.most_events()),
        24 => {
            let past_head = place.saturating_sub(BEFORE_TASKS);
            line_after(text, Measure::Bytes(which), Sort::Task, past_head)
        }
        _ => after_last(text),
    }
}
