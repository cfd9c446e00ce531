// Tables to try, and states with a number changed.
use mailbox::{Made, State};
use mailbox_base::numbers::{CELLS, LINKS, TASKS};
use mailbox_layout::{InControl, InTimes, InValues, put_control, put_entry};

// Task 1 has 100, as in the long example; tasks 4 to 31 have their own number.
const DEFAULTS: [u32; TASKS] = [
    0, 100, 0, 0, 4, 5, 6, 7, 8, 9, 10, 11, 12, 13, 14, 15, 16, 17, 18, 19, 20, 21, 22, 23, 24, 25,
    26, 27, 28, 29, 30, 31,
];

// What `State::fresh` and `State::fresh_dated` take: that is why a link stands in four arrays. Slots that no word has filled hold 77, so that a
// copy of too much is seen.
#[derive(Clone, Copy)]
pub struct Table {
    tasks: usize,
    links: usize,
    // relative deadlines, where the table has any
    deadlines: Option<[u16; TASKS]>,
    writer: [u8; LINKS],
    reader: [u8; LINKS],
    kind: [u8; LINKS],
    start_value: [u32; LINKS],
}

impl Table {
    // So many tasks and no links.
    pub(crate) fn of(tasks: usize) -> Table {
        Table {
            tasks,
            links: 0,
            deadlines: None,
            writer: [77u8; LINKS],
            reader: [77u8; LINKS],
            kind: [77u8; LINKS],
            start_value: [77u32; LINKS],
        }
    }

    // This deadline for a task, as long as there is a slot; with it the table has deadlines.
    pub(crate) fn deadline(&mut self, t: usize, x: u16) {
        let mut deadlines = self.deadlines.unwrap_or([77u16; TASKS]);
        if t < TASKS {
            deadlines[t] = x;
        }
        self.deadlines = Some(deadlines);
    }

    // One link more, as long as there is a slot.
    pub(crate) fn link(&mut self, w: u8, r: u8, k: u8, v: u32) {
        let l = self.links;
        if l < LINKS {
            self.writer[l] = w;
            self.reader[l] = r;
            self.kind[l] = k;
            self.start_value[l] = v;
            self.links += 1;
        }
    }

    // It says that it has so many links.
    pub(crate) fn count(&mut self, links: usize) {
        self.links = links;
    }

    // What it makes.
    pub(crate) fn made(&self) -> Made {
        match self.deadlines {
            Some(deadlines) => State::fresh_dated(
                self.tasks,
                self.links,
                DEFAULTS,
                deadlines,
                self.writer,
                self.reader,
                self.kind,
                self.start_value,
            ),
            None => State::fresh(
                self.tasks,
                self.links,
                DEFAULTS,
                self.writer,
                self.reader,
                self.kind,
                self.start_value,
            ),
        }
    }
}

// Puts `x` into the field of a state that this letter names, at `i` where it is an array; any other letter leaves the state as it is. Of what is
// put into its control the low byte counts.
pub(crate) fn spoil(s: &mut State, letter: u8, i: usize, x: u32) {
    let t = i % TASKS;
    let l = i % LINKS;
    let b = (x % 256) as u8;
    match letter {
        b't' => s.tasks = x as usize,
        b'l' => s.links = x as usize,
        b'p' => put_control(&mut s.control, InControl::Phase, t, b),
        b'n' => put_control(&mut s.control, InControl::Newest, t, b),
        b'o' => put_control(&mut s.control, InControl::Previous, t, b),
        b's' => put_control(&mut s.control, InControl::Seen, t, b),
        b'c' => put_entry(&mut s.values, InValues::Cell, i % CELLS, x),
        b'w' => put_control(&mut s.control, InControl::Writer, l, b),
        b'r' => put_control(&mut s.control, InControl::Reader, l, b),
        b'k' => put_control(&mut s.control, InControl::Kind, l, b),
        b'v' => put_entry(&mut s.values, InValues::StartValue, l, x),
        b'x' => put_control(&mut s.control, InControl::Pointer, l, b),
        b'm' => put_control(&mut s.control, InControl::Mark, l, b),
        b'u' => put_entry(&mut s.times, InTimes::Deadline, t, x),
        b'i' => put_entry(&mut s.times, InTimes::Since, t, x),
        b'e' => put_entry(&mut s.times, InTimes::Last, 0, x),
        b'y' => put_entry(&mut s.times, InTimes::Policy, 0, x),
        _ => {}
    }
}
