// The fresh state of a table, into a lent state.
ghost use Rattle.std.specs.Prelude.{◌≡◌, []};
ghost use Rattle.protocol_state.specs.Records.{first_tasks, first_links};
ghost use Rattle.protocol_state.specs.Saved.{state_room};
ghost use Rattle.protocol_state.specs.Fresh.{made};
ghost use Rattle.mailbox_layout.specs.Layout.{state_of};
ghost use Rattle.exports.specs.Made.{made_as};

use crate::parts::put_state;
use mailbox::State;
use mailbox_base::numbers::{LINKS, TASKS};
use mailbox_layout::{CONTROL, TIMES, VALUES};

// The fresh state of a table under fixed priorities: the refusal that the table earns, 0 for none, and its fresh state, else that of a single
// task.
pub fn parnusild_fresh_32_96_66(
    table_tasks: usize,
    table_links: usize,
    table_defaults: &[u32; TASKS],
    table_writer: &[u8; LINKS],
    table_reader: &[u8; LINKS],
    table_kind: &[u8; LINKS],
    table_start_value: &[u32; LINKS],
    tasks: &mut usize,
    links: &mut usize,
    control: &mut [u8; CONTROL],
    values: &mut [u32; VALUES],
    times: &mut [u32; TIMES],
) -> u8
    ensures { made_as result (state_of tasks.new links.new control.new values.new times.new) ≡ made state_room 0 (first_tasks table_tasks table_defaults.now []) (first_links table_links table_writer.now table_reader.now table_kind.now table_start_value.now) }
{
    let made = State::fresh(
        table_tasks,
        table_links,
        *table_defaults,
        *table_writer,
        *table_reader,
        *table_kind,
        *table_start_value,
    );
    put_state(made.state, tasks, links, control, values, times);
    made.refusal
}

// The same under earliest deadline first: each task has a relative deadline besides, and one of 0 is 24, after 2 and before 3.
pub fn parnusild_fresh_dated_32_96_66(
    table_tasks: usize,
    table_links: usize,
    table_defaults: &[u32; TASKS],
    table_deadlines: &[u16; TASKS],
    table_writer: &[u8; LINKS],
    table_reader: &[u8; LINKS],
    table_kind: &[u8; LINKS],
    table_start_value: &[u32; LINKS],
    tasks: &mut usize,
    links: &mut usize,
    control: &mut [u8; CONTROL],
    values: &mut [u32; VALUES],
    times: &mut [u32; TIMES],
) -> u8
    ensures { made_as result (state_of tasks.new links.new control.new values.new times.new) ≡ made state_room 1 (first_tasks table_tasks table_defaults.now table_deadlines.now) (first_links table_links table_writer.now table_reader.now table_kind.now table_start_value.now) }
{
    let dated = State::fresh_dated(
        table_tasks,
        table_links,
        *table_defaults,
        *table_deadlines,
        *table_writer,
        *table_reader,
        *table_kind,
        *table_start_value,
    );
    put_state(dated.state, tasks, links, control, values, times);
    dated.refusal
}
