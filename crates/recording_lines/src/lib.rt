// The lines of the printouts, made in a lent buffer.
#![tactic(auto)]

ghost use Rattle.std.specs.Prelude.{◌≡◌, ◌≤◌, length, take};
ghost use Rattle.text_line.specs.Shown.{shown, joined, Put};
ghost use Rattle.recording_lines.specs.Lines.{numbers, phase, had_word, since_word, pointer, mark, named, read_line, accepted_line, refused_line, refusal_line, place_line, rest_line, counts_line, last_line, task_line, link_line};

use text_line::{Line, ROOM};

// Room for the longest line, a task with ten cells.
pub const LINE: usize = ROOM;

// What is printed of a task beside its cells: its number, its phase, the positions, what is seen of its arrivals, the policy of its table
// (0: fixed priorities, which keep no ticks) and its arrival tick. Numbers, as the state holds them: `put_task` says what is printed of any of
// them, and one that is no phase has a word of its own.
#[derive(Clone, Copy)]
pub struct Task {
    pub number: usize,
    pub phase: u8,
    pub newest: u8,
    pub previous: u8,
    pub seen: u8,
    pub policy: u32,
    pub since: u32,
}

// A word and a number: their line. Here and below a count is made a number by `as`, since there is no `From` for it.
#[tactic(auto, using(crate::proofs::Lengths::pieces))]
fn put_named(word: &[u8], n: u64, out: &mut [u8]) -> usize
    requires { length word.now ≤ 8 }
    ensures { Put (named word.now n) out.old result out.new }
{
    Line::empty().text(word).number(n).put(out)
}

// A number read: `read`, the link, the number.
#[tactic(auto, using(crate::proofs::Lengths::pieces))]
pub fn put_read(link: u8, value: u32, out: &mut [u8]) -> usize
    ensures { Put (read_line link value) out.old result out.new }
{
    Line::empty()
        .text(b"read")
        .number(u64::from(link))
        .number(u64::from(value))
        .put(out)
}

// An accepted recording: how many events it has.
pub fn put_accepted(events: usize, out: &mut [u8]) -> usize
    ensures { Put (accepted_line events) out.old result out.new }
{
    put_named(b"accepted", events as u64, out)
}

// A refused recording: the refusal and its place.
#[tactic(auto, using(crate::proofs::Lengths::pieces))]
pub fn put_refused(refusal: u8, place: usize, out: &mut [u8]) -> usize
    ensures { Put (refused_line refusal place) out.old result out.new }
{
    Line::empty()
        .text(b"refused")
        .number(u64::from(refusal))
        .text(b" at")
        .number(place as u64)
        .put(out)
}

// Of inspect: the refusal, 0 where there is none.
pub fn put_refusal(refusal: u8, out: &mut [u8]) -> usize
    ensures { Put (refusal_line refusal) out.old result out.new }
{
    put_named(b"refusal", u64::from(refusal), out)
}

// Of inspect: the place where reading ended.
pub fn put_place(place: usize, out: &mut [u8]) -> usize
    ensures { Put (place_line place) out.old result out.new }
{
    put_named(b"place", place as u64, out)
}

// Of inspect: how many bytes are left.
pub fn put_rest(rest: usize, out: &mut [u8]) -> usize
    ensures { Put (rest_line rest) out.old result out.new }
{
    put_named(b"rest", rest as u64, out)
}

// Of inspect: the counts of arrivals, starts, reads and finishes.
pub fn put_counts(
    arrivals: usize,
    starts: usize,
    reads: usize,
    finishes: usize,
    out: &mut [u8],
) -> usize
    ensures { Put (counts_line arrivals starts reads finishes) out.old result out.new }
{
    Line::empty()
        .text(b"counts")
        .number(arrivals as u64)
        .number(starts as u64)
        .number(reads as u64)
        .number(finishes as u64)
        .put(out)
}

// Of inspect: the last tick.
pub fn put_last(tick: u32, out: &mut [u8]) -> usize
    ensures { Put (last_line tick) out.old result out.new }
{
    put_named(b"last", u64::from(tick), out)
}

// A line with a phase's word more. What is no phase has a word of its own.
#[tactic(auto, unfolding(crate::specs::Lines::phase))]
fn with_phase(line: Line, code: u8) -> Line
    ensures { shown result ≡ joined (shown line) (phase code) }
{
    match code {
        0 => line.text(b" idle"),
        1 => line.text(b" waiting"),
        2 => line.text(b" running"),
        _ => line.text(b" unknown"),
    }
}

// A line with the first ten of the cells more.
fn with_cells(line: Line, cells: &[u32]) -> Line
    ensures { shown result ≡ joined (shown line) (numbers (take 10 cells.now)) }
{
    let mut made = line;
    for x in cells.get(..10).unwrap_or(cells) {
        made = made.number(u64::from(*x));
    }
    made
}

// A line with what is seen of a task's arrivals more. What is none of the three has a word of its own.
#[tactic(auto, unfolding(crate::specs::Lines::had_word))]
fn with_had(line: Line, seen: u8) -> Line
    ensures { shown result ≡ joined (shown line) (had_word seen) }
{
    match seen {
        0 => line.text(b" had 0"),
        1 => line.text(b" had 1"),
        2 => line.text(b" had 2"),
        _ => line.text(b" had unknown"),
    }
}

// A line with a task's arrival tick more, if it is active and its table has deadlines: nothing else keeps one.
#[tactic(auto, unfolding(crate::specs::Lines::since_word), using(crate::proofs::Lengths::pieces))]
fn with_since(line: Line, policy: u32, code: u8, tick: u32) -> Line
    ensures { shown result ≡ joined (shown line) (since_word policy code tick) }
{
    if policy == 0 || code == 0 {
        return line;
    }
    line.text(b" since").number(u64::from(tick))
}

// Of inspect: a task, with as many cells as it is handed, ten at most.
pub fn put_task(task: Task, cells: &[u32], out: &mut [u8]) -> usize
    ensures { Put (task_line task cells.now) out.old result out.new }
{
    let named = Line::empty().text(b"task").number(task.number as u64);
    let placed = with_phase(named, task.phase)
        .text(b" newest")
        .number(u64::from(task.newest))
        .text(b" previous")
        .number(u64::from(task.previous));
    let filled = with_cells(placed.text(b" cells"), cells);
    let had = with_had(filled, task.seen);
    let line = with_since(had, task.policy, task.phase, task.since);
    line.put(out)
}

// A line with a pointer more.
#[tactic(auto, unfolding(crate::specs::Lines::pointer))]
fn with_pointer(line: Line, position: u8) -> Line
    ensures { shown result ≡ joined (shown line) (pointer position) }
{
    match position {
        0 => line.text(b" absent"),
        _ => line.number(u64::from(position)),
    }
}

// A line with a mark more, if there is one. What is none of the two has a word of its own.
#[tactic(auto, unfolding(crate::specs::Lines::mark), using(crate::proofs::Lengths::pieces))]
fn with_mark(line: Line, m: u8) -> Line
    ensures { shown result ≡ joined (shown line) (mark m) }
{
    match m {
        0 => line,
        1 => line.text(b" mark"),
        _ => line.text(b" mark unknown"),
    }
}

// Of inspect: a link.
pub fn put_link(link: usize, position: u8, m: u8, out: &mut [u8]) -> usize
    ensures { Put (link_line link position m) out.old result out.new }
{
    let named = Line::empty()
        .text(b"link")
        .number(link as u64)
        .text(b" pointer");
    with_mark(with_pointer(named, position), m).put(out)
}
