// What a host in C or Rust links: each call of `exports`, under the same name and with the same clauses. No crate can be called by other crates and
// linked by a host as well, so these stand in a crate of their own. `include/parnusild.h` has the same calls on a struct.
//
// Some have more parameters than a function of the library has, since a host lends the parts of a saved state one by one.
// Nothing is asked of the caller but that what is lent is there, and that nothing is lent twice. The name of each call but `parnusild_sizes`
// ends with the room of a state: a host that was built for another room does not link.
#![tactic(auto)]

ghost use Rattle.std.specs.Prelude.{◌≡◌, ◌≢◌, [], length, drop, ◌∷◌};
ghost use Rattle.protocol_state.specs.Give.{reply};
ghost use Rattle.mailbox_layout.specs.Layout.{state_of, control_size, value_size, time_size};
ghost use Rattle.mailbox_event.specs.declared.When.TheVariants.{Untimed, At};
ghost use Rattle.mailbox_call.specs.Calls.{requested, request_reply};
ghost use Rattle.protocol_state.specs.Records.{first_tasks, first_links};
ghost use Rattle.protocol_state.specs.Saved.{state_room};
ghost use Rattle.protocol_state.specs.Fresh.{made};
ghost use Rattle.exports.specs.Made.{made_as};
ghost use Rattle.byte_format.specs.Number.{Bytes};
ghost use Rattle.exports.specs.Replayed.{Replayed};
ghost use Rattle.recording_format.specs.Words.{Words};
ghost use Rattle.exports.specs.Wrote.{Wrote};

use exports::replay::COUNTS;
use exports::sizes::SIZES;
use mailbox_base::numbers::{LINKS, TASKS};
use mailbox_layout::{CONTROL, TIMES, VALUES};

// One event given to a state under fixed priorities: 19 where the state isn't sound or has deadlines, then 11 for an unknown kind, then 12 to
// 16, else it is done. A refusal leaves the three arrays as they were lent.
#[unsafe(no_mangle)]
pub extern "C" fn parnusild_event_32_96_66(
    kind: u8,
    which: u32,
    value: u32,
    number: &mut u32,
    tasks: usize,
    links: usize,
    control: &mut [u8; CONTROL],
    values: &mut [u32; VALUES],
    times: &mut [u32; TIMES],
) -> u8
    ensures answer { reply (state_of tasks links control.new values.new times.new) result number.new ≡ request_reply Untimed (state_of tasks links control.old values.old times.old) (requested kind which value) }
    ensures kept { result ≢ 0 → (control.new ≡ control.old) × ((values.new ≡ values.old) × (times.new ≡ times.old)) }
{
    exports::event::parnusild_event_32_96_66(
        kind, which, value, number, tasks, links, control, values, times,
    )
}

// One event given to a state with deadlines at a tick: 19 where the state isn't sound or is one under fixed priorities, then 11, 12, 22, 21, 13
// to 16 and 23 in this order, else it is done. No tick is ever made up: a state with deadlines takes no event without one.
#[unsafe(no_mangle)]
pub extern "C" fn parnusild_event_at_32_96_66(
    tick: u32,
    kind: u8,
    which: u32,
    value: u32,
    number: &mut u32,
    tasks: usize,
    links: usize,
    control: &mut [u8; CONTROL],
    values: &mut [u32; VALUES],
    times: &mut [u32; TIMES],
) -> u8
    ensures answer { reply (state_of tasks links control.new values.new times.new) result number.new ≡ request_reply (At tick) (state_of tasks links control.old values.old times.old) (requested kind which value) }
    ensures kept { result ≢ 0 → (control.new ≡ control.old) × ((values.new ≡ values.old) × (times.new ≡ times.old)) }
{
    exports::event::parnusild_event_at_32_96_66(
        tick, kind, which, value, number, tasks, links, control, values, times,
    )
}

// The fresh state of a table under fixed priorities: the refusal that the table earns, 0 for none, and its fresh state, else that of a single
// task.
#[unsafe(no_mangle)]
pub extern "C" fn parnusild_fresh_32_96_66(
    table_tasks: usize,
    table_links: usize,
    table_defaults: &[u32; TASKS],
    table_writer: &[u8; LINKS],
    table_reader: &[u8; LINKS],
    table_kind: &[u8; LINKS],
    table_start_value: &[u32; LINKS],
    tasks: &mut usize,
    links: &mut usize,
    control: &mut [u8; CONTROL],
    values: &mut [u32; VALUES],
    times: &mut [u32; TIMES],
) -> u8
    ensures { made_as result (state_of tasks.new links.new control.new values.new times.new) ≡ made state_room 0 (first_tasks table_tasks table_defaults.now []) (first_links table_links table_writer.now table_reader.now table_kind.now table_start_value.now) }
{
    exports::fresh::parnusild_fresh_32_96_66(
        table_tasks,
        table_links,
        table_defaults,
        table_writer,
        table_reader,
        table_kind,
        table_start_value,
        tasks,
        links,
        control,
        values,
        times,
    )
}

// The same under earliest deadline first: each task has a relative deadline besides, and one of 0 is 24, after 2 and before 3.
#[unsafe(no_mangle)]
pub extern "C" fn parnusild_fresh_dated_32_96_66(
    table_tasks: usize,
    table_links: usize,
    table_defaults: &[u32; TASKS],
    table_deadlines: &[u16; TASKS],
    table_writer: &[u8; LINKS],
    table_reader: &[u8; LINKS],
    table_kind: &[u8; LINKS],
    table_start_value: &[u32; LINKS],
    tasks: &mut usize,
    links: &mut usize,
    control: &mut [u8; CONTROL],
    values: &mut [u32; VALUES],
    times: &mut [u32; TIMES],
) -> u8
    ensures { made_as result (state_of tasks.new links.new control.new values.new times.new) ≡ made state_room 1 (first_tasks table_tasks table_defaults.now table_deadlines.now) (first_links table_links table_writer.now table_reader.now table_kind.now table_start_value.now) }
{
    exports::fresh::parnusild_fresh_dated_32_96_66(
        table_tasks,
        table_links,
        table_defaults,
        table_deadlines,
        table_writer,
        table_reader,
        table_kind,
        table_start_value,
        tasks,
        links,
        control,
        values,
        times,
    )
}

// The answer to a whole recording: the refusal, its place, the four counts and the state after the last accepted event; the numbers
// read stand first in the lent list. Each entry of the lent recording is a byte: `bytes` hands that fact on, as the replay's does.
#[unsafe(no_mangle)]
pub extern "C" fn parnusild_replay_32_96_66(
    bytes: &[u8],
    numbers: &mut [u32],
    place: &mut usize,
    counts: &mut [usize; COUNTS],
    tasks: &mut usize,
    links: &mut usize,
    control: &mut [u8; CONTROL],
    values: &mut [u32; VALUES],
    times: &mut [u32; TIMES],
) -> u8
    ensures answer { Replayed bytes.now numbers.old result place.new counts.new (state_of tasks.new links.new control.new values.new times.new) numbers.new }
    ensures bytes { Bytes bytes.now }
{
    exports::replay::parnusild_replay_32_96_66(
        bytes, numbers, place, counts, tasks, links, control, values, times,
    )
}

// How many bytes a replay leaves unread from its place on, the last of the recording: how long `recording::rest` is, 0 past the end.
#[unsafe(no_mangle)]
pub extern "C" fn parnusild_rest_32_96_66(bytes: &[u8], place: usize) -> usize
    ensures { result ≡ length (drop place bytes.now) }
{
    exports::rest::parnusild_rest_32_96_66(bytes, place)
}

// The room of a state, so many tasks and links; the bytes of its control, and the numbers of its values and of its times. This call alone has no
// room in its name: a host may ask any library for it.
#[unsafe(no_mangle)]
pub extern "C" fn parnusild_sizes(sizes: &mut [usize; SIZES])
    ensures { sizes.new ≡ state_room.tasks ∷ state_room.links ∷ control_size ∷ value_size ∷ time_size ∷ [] }
{
    exports::sizes::parnusild_sizes(sizes)
}

// Writes a recording of the kind that is told, 253, 254 or 255, from numbers: the refusal, 0 for none, and its place; for none, how many bytes were
// written. Each number has 32 bits: `numbers` hands that fact on, as the writer's does.
#[unsafe(no_mangle)]
pub extern "C" fn parnusild_write_32_96_66(
    kind: u32,
    tasks: &[u32],
    links: &[u32],
    events: &[u32],
    bytes: &mut [u8],
    place: &mut usize,
) -> u8
    ensures answer { Wrote kind tasks.now links.now events.now bytes.old result place.new bytes.new }
    ensures numbers { Words tasks.now × (Words links.now × Words events.now) }
{
    exports::write::parnusild_write_32_96_66(kind, tasks, links, events, bytes, place)
}
