// The rules of a table, refusals 2 to 9 and 20. 24, a rule of tasks, is tried where the relative deadlines are at hand.
ghost use Rattle.std.specs.Prelude.{◌≡◌, ◌≢◌, Bool, List, ℕ, ◌+◌, ◌≤◌, ◌<◌, min};
ghost use Rattle.lists.specs.Lists.{leading};
ghost use Rattle.protocol_deadlines.specs.Deadline.{Ranks};
ghost use Rattle.protocol_state.specs.Saved.{at, state_room};
ghost use Rattle.mailbox_layout.specs.Layout.{writer_in, reader_in, link_held, ahead_among};
ghost use Rattle.mailbox_layout.specs.Fresh.{as_record};
ghost use Rattle.mailbox_plan.specs.Plan.{Planned};
ghost use Rattle.protocol_state.specs.Rules.{fault_of, fault_after, fault, judged_table};
ghost use Rattle.mailbox_rules.specs.CountsBehind.{CountsBehind};
ghost use Rattle.refusals.specs.Numbers.{told};

use crate::links::{count_at, count_link, has_pair, readers_behind};
use mailbox_base::numbers::{LINKS, TASKS};
use mailbox_layout::{CONTROL, InControl, InValues, Link, TIMES, VALUES, control_at, entry_at};
use mailbox_plan::{goes_behind, is_ahead};
use refusals::Refusal;

// The refusal that a link earns, the lowest that applies: `behind` says that its reader is behind its writer; `twice` and `n` speak of its
// writer's earlier links. Its kind is a number, since any may be handed over.
fn fault_of(tasks: usize, link: Link, behind: bool, twice: bool, n: usize) -> Result<(), Refusal>
    ensures { (ahead : ℕ → ℕ → Bool) → Ranks ahead → behind ≡ ahead link.writer link.reader → told result ≡ fault_of ahead tasks (as_record link) twice n }
{
    let Link {
        writer,
        reader,
        kind,
        start_value,
    } = link;
    if (tasks <= writer as usize) | (tasks <= reader as usize) {
        return Err(Refusal::LinkOutside);
    }
    if (kind == 0) & (writer == reader) {
        return Err(Refusal::DirectToItself);
    }
    if 1 < kind {
        return Err(Refusal::UnknownLinkKind);
    }
    // of two different tasks one is ahead, so that this is not looked up
    if (kind == 0) & (!(writer == reader) & !behind) {
        return Err(Refusal::DirectToMoreUrgent);
    }
    if twice {
        return Err(Refusal::SecondLink);
    }
    if behind & (8 <= n) {
        return Err(Refusal::TooManyReaders);
    }
    if (kind == 0) & !(start_value == 0) {
        return Err(Refusal::DirectWithStart);
    }
    Ok(())
}

// The refusal that a link earns after the first `n` links, no more than there is room for, whose plan is lent. Whatever start values
// these have, it is the same.
pub fn fault_after(
    plan: &[u8; LINKS],
    tasks: usize,
    control: &[u8; CONTROL],
    times: &[u32; TIMES],
    n: usize,
    link: Link,
) -> Result<(), Refusal>
    ensures { Planned (ahead_among times.now) (at (writer_in control.now)) (at (reader_in control.now)) (min n state_room.links) plan.now → (b : List ℕ) → told result ≡ fault_after (ahead_among times.now) tasks (link_held control.now b) (min n state_room.links) (as_record link) }
{
    let w = link.writer;
    let r = link.reader;
    let twice = has_pair(control, n, w, r);
    let count = readers_behind(plan, control, n, w as usize);
    let behind = is_ahead(times, w as usize, r as usize);
    fault_of(tasks, link, behind, twice, count)
}

// The refusal that link `l` earns, by its flag and the counts of the links before it. Where its writer is none of the table's it is 4, whatever
// is counted.
fn fault_at(
    counts: &[u8; TASKS],
    plan: &[u8; LINKS],
    tasks: usize,
    control: &[u8; CONTROL],
    values: &[u32; VALUES],
    l: usize,
) -> Result<(), Refusal>
    requires { (tasks ≤ state_room.tasks) × (l < state_room.links) }
    ensures { (ahead : ℕ → ℕ → Bool) → Ranks ahead → Planned ahead (at (writer_in control.now)) (at (reader_in control.now)) (l + 1) plan.now → CountsBehind ahead (at (writer_in control.now)) (at (reader_in control.now)) l counts.now → told result ≡ fault ahead tasks (link_held control.now values.now) l }
{
    let link = Link {
        writer: control_at(control, InControl::Writer, l),
        reader: control_at(control, InControl::Reader, l),
        kind: control_at(control, InControl::Kind, l),
        start_value: entry_at(values, InValues::StartValue, l),
    };
    let twice = has_pair(control, l, link.writer, link.reader);
    let count = count_at(counts, link.writer as usize);
    fault_of(tasks, link, goes_behind(plan, l), twice, count as usize)
}

// The refusal of the first link at fault. Going over the links it counts, for each task, its links to readers behind: what stood in the
// counts is gone.
fn first_fault(
    counts: &mut [u8; TASKS],
    plan: &[u8; LINKS],
    tasks: usize,
    links: usize,
    control: &[u8; CONTROL],
    values: &[u32; VALUES],
) -> Result<(), Refusal>
    requires { (tasks ≤ state_room.tasks) × (links ≤ state_room.links) }
    ensures { (ahead : ℕ → ℕ → Bool) → Ranks ahead → Planned ahead (at (writer_in control.now)) (at (reader_in control.now)) links plan.now → (told result ≡ leading (fault ahead tasks (link_held control.now values.now)) links) × CountsBehind ahead (at (writer_in control.now)) (at (reader_in control.now)) links counts.new }
{
    *counts = [0u8; TASKS];
    let mut found = Ok(());
    for l in 0..links {
        found = found.and(fault_at(counts, plan, tasks, control, values, l));
        count_link(
            counts,
            control_at(control, InControl::Writer, l) as usize,
            goes_behind(plan, l),
        );
    }
    found
}

// The refusal that a table earns: by how many tasks and links it has, then by the first link at fault. The plan of its links is lent.
// Where it is not 2 or 3, `counts` then has how many links to readers behind each task has.
pub fn judge_table(
    counts: &mut [u8; TASKS],
    plan: &[u8; LINKS],
    tasks: usize,
    links: usize,
    control: &[u8; CONTROL],
    values: &[u32; VALUES],
) -> Result<(), Refusal>
    ensures refusal { (ahead : ℕ → ℕ → Bool) → Ranks ahead → Planned ahead (at (writer_in control.now)) (at (reader_in control.now)) (min links state_room.links) plan.now → told result ≡ judged_table ahead tasks (link_held control.now values.now) state_room links }
    ensures counts { told result ≢ 2 → told result ≢ 3 → (ahead : ℕ → ℕ → Bool) → Ranks ahead → Planned ahead (at (writer_in control.now)) (at (reader_in control.now)) (min links state_room.links) plan.now → CountsBehind ahead (at (writer_in control.now)) (at (reader_in control.now)) links counts.new }
{
    if (tasks == 0) | (TASKS < tasks) {
        return Err(Refusal::WrongCount);
    }
    if LINKS < links {
        return Err(Refusal::TooManyLinks);
    }
    first_fault(counts, plan, tasks, links, control, values)
}
