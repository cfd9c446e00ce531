// The order of two tasks, and what is found once for many events: of each link whether it goes to a reader behind.
#![tactic(auto)]

ghost use Rattle.std.specs.Prelude.{◌≡◌, cond, min, set};
ghost use Rattle.protocol_state.specs.Saved.{at, state_room};
ghost use Rattle.mailbox_layout.specs.Layout.{writer_in, reader_in, ahead_among};
ghost use Rattle.mailbox_plan.specs.Plan.{is_flagged, is_one, Planned};

use lists::few;
use mailbox_base::numbers::LINKS;
use mailbox_layout::{CONTROL, InControl, InTimes, TIMES, control_at, entry_at};

// Whether task `u` is ahead of task `t`: its relative deadline is smaller, or the same and it is earlier in the table, as under fixed
// priorities, where no task has one. Every order of two tasks is asked for here.
#[tactic(auto, unfolding(protocol_deadlines::specs::Deadline::smaller, protocol_deadlines::specs::Deadline::ahead_by))]
pub fn is_ahead(times: &[u32; TIMES], u: usize, t: usize) -> bool
    ensures { result ≡ ahead_among times.now u t }
{
    let x = entry_at(times, InTimes::Deadline, u);
    let y = entry_at(times, InTimes::Deadline, t);
    (x < y) | ((x == y) & (u < t))
}

// Whether link `l` goes to a reader behind, by its flag. The last bit is asked for, and not the whole byte: where fewer than 32 links are left, the
// compiler then compares eight at once in place of four.
pub fn goes_behind(plan: &[u8; LINKS], l: usize) -> bool
    ensures { result ≡ is_flagged plan.now l }
{
    plan.get(l).is_some_and(|flag| *flag % 2 == 1)
}

// The same by the whole byte: where a loop writes bytes by it, as a finish does, the compiler then stays with bytes; for the last bit it would
// widen them first.
pub fn flag_is_one(plan: &[u8; LINKS], l: usize) -> bool
    ensures { result ≡ is_one plan.now l }
{
    plan.get(l).is_some_and(|flag| *flag == 1)
}

// Sets the flag of link `l`, where there is room for such a link.
pub fn put_flag(plan: &mut [u8; LINKS], l: usize, behind: bool)
    ensures { plan.new ≡ set plan.old l (cond behind 1 0) }
{
    if l < LINKS {
        plan[l] = u8::from(behind);
    }
}

// The plan of the first links of a state; a count above the room is taken as the room.
pub fn plan_of(links: usize, control: &[u8; CONTROL], times: &[u32; TIMES]) -> [u8; LINKS]
    ensures { Planned (ahead_among times.now) (at (writer_in control.now)) (at (reader_in control.now)) (min links state_room.links) result }
{
    let mut plan = [0u8; LINKS];
    for l in 0..few(links, LINKS) {
        let w = control_at(control, InControl::Writer, l);
        let r = control_at(control, InControl::Reader, l);
        put_flag(&mut plan, l, is_ahead(times, w as usize, r as usize));
    }
    plan
}
