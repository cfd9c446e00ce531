// The printouts of a recording, written to standard output: what was read, and, for a closer look, the state at the end.
//
// What a program writes no contract can say, so of the functions here it is proved that they are safe, that they end, and what the
// lent list then holds. Each line is made by `recording_lines`, whose contracts say what stands in it; the numbers are those that
// `recording::replay` answers with.
#![tactic(auto)]

ghost use Rattle.std.specs.Prelude.{◌≡◌, ◌<◌};
ghost use Rattle.recording.specs.Answers.{list_after};

use mailbox::State;
use mailbox_base::numbers::{LINKS, POSITIONS, TASKS};
use mailbox_event::Event;
use mailbox_layout::cells_in;
use mailbox_plan::plan_of;
use mailbox_rules::links::readers_behind;
use recording::{Answer, replay, rest};
use recording_lines::{
    LINE, Task, put_accepted, put_counts, put_last, put_link, put_place, put_read, put_refusal,
    put_refused, put_rest, put_task,
};
use recording_table::{RECORDING, read_table};
use recording_walk::event_at;
use text_line::show;

// The bytes of the longest recording, and one more so that an extra byte is seen.
pub const BYTES: usize = RECORDING + 1;

// A program's room for numbers: as many as a recording may have events.
pub const NUMBERS: usize = State::EVENTS;

// The part of a list from a place on that has n entries; empty where there are fewer.
fn part(list: &[u32], from: usize, n: usize) -> &[u32] {
    list.get(from..)
        .and_then(|rest| rest.get(..n))
        .unwrap_or(&[])
}

// Writes the line that is put into a buffer with room for the longest.
fn print_line<F: FnOnce(&mut [u8]) -> usize>(put: F)
    requires { F.IsAlwaysCallable put }
{
    let mut line = [0u8; LINE];
    show(put(&mut line), &line);
}

// Writes a line for each number of the list, with the links of the read records among the events from a place on.
fn print_reads(s: &[u8], from: usize, events: usize, list: &[u32]) {
    let mut numbers = list.iter();
    let mut at = from;
    for _ in 0..events {
        let Ok(record) = event_at(s, at) else {
            break;
        };
        if let Event::Read(link) = record.event {
            if let Some(value) = numbers.next() {
                print_line(|line| put_read(link, *value, line));
            }
        }
        at = record.after;
    }
}

// Writes the last line of a replay: all events accepted, or the refusal and its place.
fn print_end(a: &Answer, events: usize) {
    if a.refusal == 0 {
        print_line(|line| put_accepted(events, line));
    } else {
        print_line(|line| put_refused(a.refusal, a.place, line));
    }
}

// Writes the last line of a replay alone. The lent list has the numbers.
pub fn print_last(s: &[u8], out: &mut [u32])
    ensures { out.new ≡ list_after s.now out.old }
{
    let a = replay(s, out);
    let events = read_table(s).map_or(0, |table| table.events);
    print_end(&a, events);
}

// Writes what a recording says: a line for each number read, then whether it was accepted. The lent list has the numbers.
pub fn print_replay(s: &[u8], out: &mut [u32])
    ensures { out.new ≡ list_after s.now out.old }
{
    let a = replay(s, out);
    let mut events = 0;
    if let Ok(table) = read_table(s) {
        events = table.events;
        print_reads(s, table.place, events, part(out, 0, a.reads));
    }
    print_end(&a, events);
}

// Writes the line of a task: it has as many positions as links to readers behind, and two more.
fn print_task(q: &State, plan: &[u8; LINKS], t: usize)
    requires { t < 32 }
{
    let behind = readers_behind(plan, &q.control, q.links, t);
    let own = part(cells_in(&q.values), t * POSITIONS, behind + 2);
    let task = Task {
        number: t,
        phase: q.phase(t),
        newest: q.newest(t),
        previous: q.previous(t),
        seen: q.seen(t),
        policy: q.policy(),
        since: q.since(t),
    };
    print_line(|line| put_task(task, own, line));
}

// Writes a state: its last tick, where there are deadlines, since under fixed priorities no tick is kept; its tasks, then its links. A count,
// never more than there is room for, is held to the room all the same.
fn print_state(q: &State) {
    if q.policy() != 0 {
        print_line(|line| put_last(q.last(), line));
    }
    let plan = plan_of(q.links, &q.control, &q.times);
    for t in 0..q.tasks.min(TASKS) {
        print_task(q, &plan, t);
    }
    for l in 0..q.links.min(LINKS) {
        print_line(|line| put_link(l, q.pointer(l), q.mark(l), line));
    }
}

// Writes all that a replay answers with: the refusal, 0 for none, the place, the counts, the state, and how much is left unread.
pub fn print_inspect(s: &[u8], out: &mut [u32])
    ensures { out.new ≡ list_after s.now out.old }
{
    let a = replay(s, out);
    print_line(|line| put_refusal(a.refusal, line));
    print_line(|line| put_place(a.place, line));
    print_line(|line| put_counts(a.arrivals, a.starts, a.reads, a.finishes, line));
    print_state(&a.state);
    print_line(|line| put_rest(rest(s, a.place).len(), line));
}
