// What is asked of a lent state: 19 where the state isn't sound or is of the other policy, then why it is no event, then the refusals of an event in
// their order, else it is done.
//
// A function for each policy: one for both asked for the policy at each step of an event, and a single event took longer for it.
#![tactic(auto)]

ghost use Rattle.std.specs.Prelude.{◌≡◌, OnErr};
ghost use Rattle.std.specs.Result.{result_unwrap_or};
ghost use Rattle.refusals.specs.Numbers.{told};
ghost use Rattle.protocol_state.specs.Give.{reply};
ghost use Rattle.mailbox_layout.specs.Layout.{state_of};
ghost use Rattle.mailbox_event.specs.declared.When.TheVariants.{Untimed, At};
ghost use Rattle.mailbox_call.specs.Replies.{heard};

use mailbox_event::Event;
use mailbox_layout::{CONTROL, InTimes, TIMES, VALUES, entry_at};
use mailbox_parts::{do_event, do_fixed, judge, judge_fixed, value_of};
use mailbox_plan::plan_of;
use mailbox_sound::is_sound;
use refusals::Refusal;

// Under fixed priorities: the number of an accepted read, else 0; a refusal leaves the arrays as they were lent. The plan of the state's links is
// made once, for the test and for the event.
pub fn give(
    asked: Result<Event, Refusal>,
    tasks: usize,
    links: usize,
    control: &mut [u8; CONTROL],
    values: &mut [u32; VALUES],
    times: &[u32; TIMES],
) -> Result<u32, Refusal>
    ensures answer { reply (state_of tasks links control.new values.new times.now) (told result) (result_unwrap_or result 0) ≡ heard Untimed (state_of tasks links control.old values.old times.now) asked }
    ensures kept { OnErr result ((control.new ≡ control.old) × (values.new ≡ values.old)) }
{
    let plan = plan_of(links, control, times);
    let sound = is_sound(&plan, tasks, links, control, values, times);
    if !(sound & (entry_at(times, InTimes::Policy, 0) == 0)) {
        return Err(Refusal::NotSound);
    }
    let e = asked?;
    judge_fixed(e, tasks, links, control)?;
    let number = value_of(e, control, values);
    do_fixed(&plan, e, tasks, links, control, values);
    Ok(number)
}

// The same under earliest deadline first, at a tick.
pub fn give_at(
    tick: u32,
    asked: Result<Event, Refusal>,
    tasks: usize,
    links: usize,
    control: &mut [u8; CONTROL],
    values: &mut [u32; VALUES],
    times: &mut [u32; TIMES],
) -> Result<u32, Refusal>
    ensures answer { reply (state_of tasks links control.new values.new times.new) (told result) (result_unwrap_or result 0) ≡ heard (At tick) (state_of tasks links control.old values.old times.old) asked }
    ensures kept { OnErr result ((control.new ≡ control.old) × ((values.new ≡ values.old) × (times.new ≡ times.old))) }
{
    let plan = plan_of(links, control, times);
    let sound = is_sound(&plan, tasks, links, control, values, times);
    if !(sound & (entry_at(times, InTimes::Policy, 0) == 1)) {
        return Err(Refusal::NotSound);
    }
    let e = asked?;
    judge(tick, e, tasks, links, control, times)?;
    let number = value_of(e, control, values);
    do_event(&plan, tick, e, tasks, links, control, values, times);
    Ok(number)
}
