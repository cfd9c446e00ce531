// The four counts of an answer.
ghost use Rattle.std.specs.Prelude.{◌≡◌, ◌≤◌, min};
ghost use Rattle.lists.specs.Lists.{count};
ghost use Rattle.protocol.specs.Event.{has};
ghost use Rattle.protocol_state.specs.Saved.{state_room};

use lists::{Test, count, few};
use mailbox_base::numbers::{TASKS, has};

// How many tasks arrived, each task of an arrival counting one, and how many started, read and finished: none before the first event.
#[derive(Clone, Copy, Debug, Default, PartialEq, Eq)]
pub struct Counts {
    pub arrivals: usize,
    pub starts: usize,
    pub reads: usize,
    pub finishes: usize,
}

// The test whether a task is in a set.
#[derive(Clone, Copy)]
struct InSet {
    set: u32,
}

impl Test for InSet {
    ghost test = { λ i. has i.set };

    fn holds(&self, t: usize) -> bool {
        has(self.set, t)
    }
}

// How many tasks of the table are in a set.
pub fn tasks_in(set: u32, tasks: usize) -> usize
    ensures { (result ≡ count (has set) (min tasks state_room.tasks)) × (result ≤ state_room.tasks) }
{
    count(few(tasks, TASKS), &InSet { set })
}
