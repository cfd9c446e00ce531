// The arrays of a table, in a fresh state.
ghost use Rattle.std.specs.Prelude.{◌≡◌, ◌≢◌, ◌&&◌, not, List, [], ℕ, ◌≤◌, min, eqb};
ghost use Rattle.lists.specs.Lists.{some};
ghost use Rattle.protocol_state.specs.Records.{Task, first_tasks, first_links};
ghost use Rattle.protocol_state.specs.Saved.{at, state_room};
ghost use Rattle.protocol_state.specs.Fresh.{then_dates};
ghost use Rattle.mailbox_layout.specs.Layout.{cut, cut_values, cut_times, deadline_in, policy_in};
ghost use Rattle.mailbox_layout.specs.Fresh.{fresh_control, fresh_values, fresh_times};
ghost use Rattle.refusals.specs.Numbers.{told};

use lists::{Test, few, some};
use mailbox_base::numbers::{LINKS, TASKS};
use mailbox_layout::fresh::{fill_cells, fresh_times, put_link};
use mailbox_layout::{CONTROL, InTimes, InValues, Link, TIMES, VALUES, entry_at, put_entry};
use refusals::Refusal;

// Puts the first `n` links, no more than there is room for, into arrays without links; the slots past them hold 0.
pub(crate) fn put_links(
    n: usize,
    writer: &[u8; LINKS],
    reader: &[u8; LINKS],
    kind: &[u8; LINKS],
    start_value: &[u32; LINKS],
    control: &mut [u8; CONTROL],
    values: &mut [u32; VALUES],
)
    ensures control { cut control.old ≡ fresh_control [] → cut control.new ≡ fresh_control (first_links (min n state_room.links) writer.now reader.now kind.now start_value.now) }
    ensures values { (ts : List Task) → cut_values values.old ≡ fresh_values ts [] → cut_values values.new ≡ fresh_values ts (first_links (min n state_room.links) writer.now reader.now kind.now start_value.now) }
{
    for l in 0..few(n, LINKS) {
        let link = Link {
            writer: writer[l],
            reader: reader[l],
            kind: kind[l],
            start_value: start_value[l],
        };
        put_link(control, values, l, link);
    }
}

// The values of the first `n` defaults, no more than there is room for, without links: the slots past them hold 0, and each position its
// task's default.
pub(crate) fn values_of(n: usize, defaults: &[u32; TASKS]) -> [u32; VALUES]
    ensures { (X : List ℕ) → cut_values result ≡ fresh_values (first_tasks (min n state_room.tasks) defaults.now X) [] }
{
    let mut values = [0u32; VALUES];
    for t in 0..few(n, TASKS) {
        put_entry(&mut values, InValues::Default, t, defaults[t]);
    }
    fill_cells(&mut values);
    values
}

// The times of the first `n` relative deadlines, no more than there is room for, under earliest deadline first: the slots past them hold 0.
pub(crate) fn times_of(n: usize, deadlines: &[u16; TASKS]) -> [u32; TIMES]
    ensures { (D : List ℕ) → cut_times result ≡ fresh_times 1 (first_tasks (min n state_room.tasks) D deadlines.now) }
{
    let mut times = fresh_times(1);
    for t in 0..few(n, TASKS) {
        put_entry(&mut times, InTimes::Deadline, t, u32::from(deadlines[t]));
    }
    times
}

// The test whether a task has a relative deadline of 0.
#[derive(Clone, Copy)]
struct Undated<'a> {
    times: &'a [u32; TIMES],
}

impl<'a> Test for Undated<'a> {
    ghost test = { λ u t. eqb (at (deadline_in u.times.now) t) 0 };

    fn holds(&self, t: usize) -> bool {
        let times = self.times;
        entry_at(times, InTimes::Deadline, t) == 0
    }
}

// Whether one of so many tasks has one.
fn some_undated(tasks: usize, times: &[u32; TIMES]) -> bool
    ensures { result ≡ some (λ t. eqb (at (deadline_in times.now) t) 0) tasks }
{
    some(tasks, &Undated { times })
}

// The refusal of a table of so many tasks: 24 after 2, where one of them has no relative deadline under earliest deadline first. `table` is
// judged without it.
pub(crate) fn then_dates(
    table: Result<(), Refusal>,
    tasks: usize,
    times: &[u32; TIMES],
) -> Result<(), Refusal>
    ensures { (told table ≢ 2 → tasks ≤ state_room.tasks) → told result ≡ then_dates (told table) (not (eqb (policy_in times.now) 0) && some (λ t. eqb (at (deadline_in times.now) t) 0) tasks) }
{
    match table {
        Err(Refusal::WrongCount) => table,
        _ if entry_at(times, InTimes::Policy, 0) == 0 => table,
        _ if some_undated(few(tasks, TASKS), times) => Err(Refusal::NoDeadline),
        _ => table,
    }
}
