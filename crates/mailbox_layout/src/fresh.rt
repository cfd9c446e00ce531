// The arrays of a fresh state: no link yet, and every position of a task holding its default.
ghost use Rattle.std.specs.Prelude.{◌≡◌, [], set};
ghost use Rattle.mailbox_layout.specs.Layout.{cell_region, cut, cut_values, cut_times, cells_in, defaults_in};
ghost use Rattle.mailbox_layout.specs.Fresh.{fresh_control, fresh_times, as_record, link_put, start_put, each_default};

use crate::{
    CONTROL, InControl, InTimes, InValues, Link, TIMES, VALUES, entry_at, put_control, put_entry,
};
use mailbox_base::numbers::{CELLS, POSITIONS, TASKS};

// The control of a fresh state without links: newest and previous at 1, every task idle and without arrivals, every pointer absent, no mark.
pub fn fresh_control() -> [u8; CONTROL]
    ensures { cut result ≡ fresh_control [] }
{
    let mut control = [0u8; CONTROL];
    for t in 0..TASKS {
        put_control(&mut control, InControl::Newest, t, 1);
        put_control(&mut control, InControl::Previous, t, 1);
    }
    control
}

// The times of a fresh state without tasks, under a policy: no tick yet.
pub fn fresh_times(policy: u32) -> [u32; TIMES]
    ensures { cut_times result ≡ fresh_times policy [] }
{
    let mut times = [0u32; TIMES];
    put_entry(&mut times, InTimes::Policy, 0, policy);
    times
}

// Puts link `l`: its writer, its reader and its kind into the control, its start value into the values.
pub fn put_link(control: &mut [u8; CONTROL], values: &mut [u32; VALUES], l: usize, link: Link)
    ensures control { cut control.new ≡ link_put (cut control.old) l (as_record link) }
    ensures values { cut_values values.new ≡ start_put (cut_values values.old) l (as_record link) }
{
    put_control(control, InControl::Writer, l, link.writer);
    put_control(control, InControl::Reader, l, link.reader);
    put_control(control, InControl::Kind, l, link.kind);
    put_entry(values, InValues::StartValue, l, link.start_value);
}

// Each position of a task holds its default.
pub fn fill_cells(values: &mut [u32; VALUES])
    ensures { cut_values values.new ≡ set (cut_values values.old) cell_region (each_default (defaults_in values.old) (cells_in values.old)) }
{
    for i in 0..CELLS {
        let x = entry_at(values, InValues::Default, i / POSITIONS);
        put_entry(values, InValues::Cell, i, x);
    }
}
