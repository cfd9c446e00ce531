// The text form of a recording, read line by line into the numbers that the writer of a recording takes; and the line of what it refuses.
#![tactic(auto)]

ghost use Rattle.std.specs.Prelude.{◌≡◌, cond, length, take, MatchResult};
ghost use Rattle.recording_text_fields.specs.Faults.{number};
ghost use Rattle.recording_text_line.specs.Sorts.{sort_number};
ghost use Rattle.recording_text_line.specs.Told.{said_of};
ghost use Rattle.recording_text_place.specs.Place.{line_of};
ghost use Rattle.recording_text.specs.Text.{read_of, told, takes, and_record, RoomFor, put_at, tasks_of, links_of, events_of, over, fault_in, kind_number, kind_after};

use recording_format::{LINK_NUMBERS, MOST_LINKS, MOST_TASKS, PLAIN_EVENTS, WhichKind};
use recording_text_fields::fault::Fault;
use recording_text_line::record::Record;
use recording_text_line::said::Said;
use recording_text_line::sort::Sort;
use recording_text_place::refusal_line;

// So many tasks, links and events are stored: one more than a recording of any kind may have, so that the writer sees that there are too many.
// They are lists of a fixed size with counts beside them: memory is fixed.
const TASKS_KEPT: usize = MOST_TASKS + 1;

const LINKS_KEPT: usize = MOST_LINKS + 1;

const EVENTS_KEPT: usize = PLAIN_EVENTS + 1;

// The room for tasks, of one or two numbers,
pub const TASKS: usize = 2 * TASKS_KEPT;

// that for links,
pub const LINKS: usize = LINK_NUMBERS * LINKS_KEPT;

// and that for events, of two to four numbers.
pub const EVENTS: usize = 4 * EVENTS_KEPT;

// What is read of a text: the number of the kind, and how many numbers were stored of tasks, links and events.
#[derive(Clone, Copy, Debug, PartialEq, Eq)]
pub struct Read {
    pub kind: u32,
    pub tasks: usize,
    pub links: usize,
    pub events: usize,
}

// Why a text cannot be read, and in which line, from 1; and what was read before it, of a kind with the number 0 where no line said it.
#[derive(Clone, Copy, Debug, PartialEq, Eq)]
pub struct Unread {
    pub fault: Fault,
    pub line: usize,
    pub read: Read,
}

// What is stored of one sort: so many records, and so many numbers.
#[derive(Clone, Copy)]
pub struct Kept {
    pub records: usize,
    pub numbers: usize,
}

impl Kept {
    // Nothing is stored yet.
    const NONE: Kept = Kept {
        records: 0,
        numbers: 0,
    };
}

// Stores a record where it is of a sort, of which fewer are stored than may be.
fn keep(said: &Record, sort: Sort, most: usize, out: &mut [u32], kept: Kept) -> Kept
    requires { RoomFor (sort_number sort) most (length out.old) kept }
    ensures answer { result ≡ cond (takes said.now (sort_number sort) most kept) (and_record said.now kept) kept }
    ensures list { out.new ≡ cond (takes said.now (sort_number sort) most kept) (put_at out.old kept.numbers said.now) out.old }
    ensures whole { length (take said.now.size said.now.numbers) ≡ said.now.size }
{
    if !said.is(sort) || most <= kept.records {
        return kept;
    }
    let end = kept.numbers + usize::from(said.size);
    out[kept.numbers..end].copy_from_slice(said.numbers());
    Kept {
        records: kept.records + 1,
        numbers: end,
    }
}

// What a line says where the kind is known, or not yet: the kind comes first and once; a line with no record may stand anywhere.
#[tactic(auto, unfolding(crate::specs::Text::fault_in, recording_text_line::specs::Line::sort))]
fn in_place(known: bool, said: Result<Option<Record>, Fault>) -> Result<Option<Record>, Fault>
    ensures { MatchResult result (λ r. (said_of said ≡ said_of result) × (fault_in known (said_of said) ≡ 0)) (λ f. fault_in known (said_of said) ≡ number f) }
{
    let Some(record) = said? else {
        return Ok(None);
    };
    if record.is(Sort::Kind) == known {
        return Err(Fault::KindNotFirst);
    }
    Ok(Some(record))
}

// The kind as it is known after a record.
fn kind_after(kind: Option<u32>, said: &Record) -> Option<u32>
    ensures { result ≡ kind_after kind said.now }
{
    if said.is(Sort::Kind) {
        Some(said.first())
    } else {
        kind
    }
}

// What is read so far.
fn so_far(kind: Option<u32>, task: Kept, link: Kept, event: Kept) -> Read
    ensures { result ≡ record { kind = kind_number kind; tasks = task.numbers; links = link.numbers; events = event.numbers } }
{
    Read {
        kind: kind.unwrap_or(0),
        tasks: task.numbers,
        links: link.numbers,
        events: event.numbers,
    }
}

// Reads a text: the kind, the tasks, links and events up to the first line that cannot be read, each of these sorts at the start of its own list.
pub fn read_text(
    text: &[u8],
    tasks: &mut [u32; TASKS],
    links: &mut [u32; LINKS],
    events: &mut [u32; EVENTS],
) -> Result<Read, Unread>
    ensures answer { told result ≡ read_of text.now }
    ensures tasks { tasks.new ≡ over (tasks_of text.now) tasks.old }
    ensures links { links.new ≡ over (links_of text.now) links.old }
    ensures events { events.new ≡ over (events_of text.now) events.old }
{
    let mut kind = None;
    let mut task = Kept::NONE;
    let mut link = Kept::NONE;
    let mut event = Kept::NONE;
    let mut line = 0;
    for said in Said::of(text) {
        line += 1;
        let record = match in_place(kind.is_some(), said) {
            Ok(Some(record)) => record,
            Ok(None) => continue,
            Err(fault) => {
                let read = so_far(kind, task, link, event);
                return Err(Unread { fault, line, read });
            }
        };
        kind = kind_after(kind, &record);
        task = keep(&record, Sort::Task, TASKS_KEPT, tasks, task);
        link = keep(&record, Sort::Link, LINKS_KEPT, links, link);
        event = keep(&record, Sort::Event, EVENTS_KEPT, events, event);
    }
    let read = so_far(kind, task, link, event);
    if kind.is_none() {
        return Err(Unread {
            fault: Fault::KindNotFirst,
            line: line + 1,
            read,
        });
    }
    Ok(read)
}

// The line of a refusal of the writer, in the text of a recording of a kind: that of the record at fault, or the line after the last.
pub fn line_of(text: &[u8], which: WhichKind, refusal: u8, place: usize) -> usize
    ensures { result ≡ line_of which text.now refusal place }
{
    refusal_line(text, which, refusal, place)
}
