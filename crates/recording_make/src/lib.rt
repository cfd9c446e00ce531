// The recording of a text, made in a lent buffer: the text is read by `recording_text`, and its numbers are lent to `recording_write`.
#![tactic(auto)]

ghost use Rattle.std.specs.Prelude.{◌≡◌, length};
ghost use Rattle.recording_write.specs.Answers.{reply_to, buffer_to};
ghost use Rattle.recording_make.specs.Made.{make_reply, made_of, buffer_of, told, Refuses};

use recording_format::which_kind;
use recording_text::{EVENTS, LINKS, TASKS, Unread, line_of, read_text};
use recording_text_fields::fault::Fault;
use recording_write::write;

// Why a text has no recording, and in which line, from 1: it cannot be read, or the writer refuses it, at a place in the recording. The refusal is a
// number, as the writer's answer has it.
#[derive(Clone, Copy, Debug, PartialEq, Eq)]
pub enum Unmade {
    Unreadable {
        fault: Fault,
        line: usize,
    },
    Refused {
        refusal: u8,
        place: usize,
        line: usize,
    },
}

impl From<Unread> for Unmade {
    ghost use Rattle.recording_make.specs.declared.Unmade.TheVariants.{Unreadable};

    ghost from_gives = { λ u r. r ≡ Unreadable u.fault u.line };

    fn from(unread: Unread) -> Unmade {
        Unmade::Unreadable {
            fault: unread.fault,
            line: unread.line,
        }
    }
}

// The recording of the kind and the numbers of a text, written at the start of a lent buffer: how many bytes it has.
fn make_written(
    kind: u32,
    text: &[u8],
    tasks: &[u32],
    links: &[u32],
    events: &[u32],
    out: &mut [u8],
) -> Result<usize, Unmade>
    ensures answer { told result ≡ make_reply kind text.now (reply_to kind tasks.now links.now events.now (length out.old)) }
    ensures refused { Refuses result }
    ensures buffer { out.new ≡ buffer_to kind tasks.now links.now events.now out.old }
{
    let written = write(kind, tasks, links, events, out);
    let place = written.place;
    match written.refusal {
        0 => Ok(place),
        refusal => Err(Unmade::Refused {
            refusal,
            place,
            line: line_of(text, which_kind(kind), refusal, place),
        }),
    }
}

// The recording of a text, made at the start of a lent buffer, which is untouched where there is none: how many bytes it has.
pub fn make_recording(text: &[u8], out: &mut [u8]) -> Result<usize, Unmade>
    ensures answer { told result ≡ made_of text.now (length out.old) }
    ensures refused { Refuses result }
    ensures buffer { out.new ≡ buffer_of text.now out.old }
{
    let mut tasks = [0u32; TASKS];
    let mut links = [0u32; LINKS];
    let mut events = [0u32; EVENTS];
    let read = read_text(text, &mut tasks, &mut links, &mut events)?;
    make_written(
        read.kind,
        text,
        &tasks[..read.tasks],
        &links[..read.links],
        &events[..read.events],
        out,
    )
}
