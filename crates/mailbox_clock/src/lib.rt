// An event at its tick under earliest deadline first: its refusals, 21 to 23 among them, and what an accepted event makes of the ticks. Each
// function says what it answers and leaves whatever the policy, and that it is what the definitions ask where there are deadlines.
#![tactic(auto)]

ghost use Rattle.std.specs.Prelude.{◌≡◌, ◌≢◌, cond, not, List, ℕ, ◌+◌, min, eqb, ltb};
ghost use Rattle.std.proofs.Math.ListN as lists;
ghost use Rattle.refusals.specs.Numbers.{told};
ghost use Rattle.lists.specs.Lists.{upto};
ghost use Rattle.protocol.specs.Event.{arrival, start, read, finish};
ghost use Rattle.protocol_deadlines.specs.Timed.{tried};
ghost use Rattle.protocol_state.specs.Saved.{at, state_room};
ghost use Rattle.protocol_state.specs.Judge.{judged_arrival, judged_task, judged_read, judged_on_at};
ghost use Rattle.protocol_state.specs.Next.{since_at, clocked};
ghost use Rattle.mailbox_layout.specs.Layout.{since_region, cut_times, phase_in, reader_in, deadline_in, since_in, last_in, policy_in, ahead_among, sooner_among, state_of, view_of};
ghost use Rattle.mailbox_clock.specs.Clock.{last_put};

use lists::few;
use mailbox_base::numbers::{MOST_TICK, TASKS, has};
use mailbox_event::Kind;
use mailbox_judge::{due_at, judge_arrival, judge_job, judge_job_read};
use mailbox_layout::{CONTROL, InTimes, TIMES, entry_at, put_entry};
use refusals::Refusal;

// Whether a finish of task `t` comes by its deadline: at the deadline it passes, and after it there is 23.
fn in_time(t: u8, tick: u32, times: &[u32; TIMES]) -> Result<(), Refusal>
    ensures { told result ≡ cond (ltb (at (since_in times.now) t + at (deadline_in times.now) t) tick) 23 0 }
{
    if due_at(times, usize::from(t)) < u64::from(tick) {
        return Err(Refusal::Late);
    }
    Ok(())
}

// Whether an event is allowed at a tick, in the order in which refusals are tried: 12, 22, 21, then 13 to 16, then 23. `judged` is what it earns
// without ticks, `in_time` whether it comes by its deadline.
fn try_tick(
    judged: Result<(), Refusal>,
    tick: u32,
    in_time: Result<(), Refusal>,
    times: &[u32; TIMES],
) -> Result<(), Refusal>
    ensures { told result ≡ tried (told judged) (last_in times.now) tick (told in_time) }
{
    match judged {
        Err(Refusal::Outside) => judged,
        _ if MOST_TICK < tick => Err(Refusal::TickTooLarge),
        _ if tick < entry_at(times, InTimes::Last, 0) => Err(Refusal::TickFalls),
        Ok(()) => in_time,
        Err(_) => judged,
    }
}

// Whether the policy is earliest deadline first: under fixed priorities there are no ticks to look at or to keep, and no other function of
// this crate is called. Who gives many events asks before them, not at each.
pub fn is_dated(times: &[u32; TIMES]) -> bool
    ensures { result ≡ not (eqb (policy_in times.now) 0) }
{
    entry_at(times, InTimes::Policy, 0) != 0
}

// Whether the arrival of a set is allowed at a tick.
pub fn judge_arrival_at(
    tick: u32,
    set: u32,
    tasks: usize,
    control: &[u8; CONTROL],
    times: &[u32; TIMES],
) -> Result<(), Refusal>
    ensures answer { told result ≡ tried (judged_arrival set (min tasks state_room.tasks) (at (phase_in control.now))) (last_in times.now) tick 0 }
    ensures dated { policy_in times.now ≢ 0 → (L : ℕ) (v : List ℕ) → told result ≡ judged_on_at (ahead_among times.now) (view_of tasks L control.now v times.now) tick (arrival set) }
{
    try_tick(judge_arrival(set, tasks, control), tick, Ok(()), times)
}

// The start of task `t`.
pub fn judge_start_at(
    tick: u32,
    t: u8,
    tasks: usize,
    control: &[u8; CONTROL],
    times: &[u32; TIMES],
) -> Result<(), Refusal>
    ensures answer { told result ≡ tried (judged_task (sooner_among times.now) 1 t (min tasks state_room.tasks) (at (phase_in control.now))) (last_in times.now) tick 0 }
    ensures dated { policy_in times.now ≢ 0 → (L : ℕ) (v : List ℕ) → told result ≡ judged_on_at (ahead_among times.now) (view_of tasks L control.now v times.now) tick (start t) }
{
    try_tick(
        judge_job(Kind::Start, t, tasks, control, times),
        tick,
        Ok(()),
        times,
    )
}

// A read by link `l`.
pub fn judge_read_at(
    tick: u32,
    l: u8,
    tasks: usize,
    links: usize,
    control: &[u8; CONTROL],
    times: &[u32; TIMES],
) -> Result<(), Refusal>
    ensures answer { told result ≡ tried (judged_read (sooner_among times.now) l (min tasks state_room.tasks) (min links state_room.links) (at (reader_in control.now)) (at (phase_in control.now))) (last_in times.now) tick 0 }
    ensures dated { policy_in times.now ≢ 0 → (v : List ℕ) → told result ≡ judged_on_at (ahead_among times.now) (view_of tasks links control.now v times.now) tick (read l) }
{
    try_tick(
        judge_job_read(l, tasks, links, control, times),
        tick,
        Ok(()),
        times,
    )
}

// The finish of task `t` with any value.
pub fn judge_finish_at(
    tick: u32,
    t: u8,
    tasks: usize,
    control: &[u8; CONTROL],
    times: &[u32; TIMES],
) -> Result<(), Refusal>
    ensures answer { told result ≡ tried (judged_task (sooner_among times.now) 3 t (min tasks state_room.tasks) (at (phase_in control.now))) (last_in times.now) tick (cond (ltb (at (since_in times.now) t + at (deadline_in times.now) t) tick) 23 0) }
    ensures dated { policy_in times.now ≢ 0 → (L w : ℕ) (v : List ℕ) → told result ≡ judged_on_at (ahead_among times.now) (view_of tasks L control.now v times.now) tick (finish t w) }
{
    let judged = judge_job(Kind::Finish, t, tasks, control, times);
    try_tick(judged, tick, in_time(t, tick, times), times)
}

// The last tick, after an event that changes no arrival tick: a start or a read.
pub fn keep_tick(tick: u32, times: &mut [u32; TIMES])
    ensures times { cut_times times.new ≡ last_put tick (cut_times times.old) }
    ensures start { policy_in times.old ≢ 0 → (T L t : ℕ) (c v : List ℕ) → state_of T L c v times.new ≡ clocked tick (start t) (state_of T L c v times.old) }
    ensures read { policy_in times.old ≢ 0 → (T L l : ℕ) (c v : List ℕ) → state_of T L c v times.new ≡ clocked tick (read l) (state_of T L c v times.old) }
{
    put_entry(times, InTimes::Last, 0, tick);
}

// Each task of the set, of the first `tasks`, keeps the tick of its arrival.
fn keep_each(tick: u32, set: u32, tasks: usize, times: &mut [u32; TIMES])
    ensures { cut_times times.new ≡ lists.set (cut_times times.old) since_region (upto (since_at set tick) tasks (since_in times.old)) }
{
    for t in 0..tasks {
        if has(set, t) {
            put_entry(times, InTimes::Since, t, tick);
        }
    }
}

// The ticks after the arrival of a set. A count above the room is taken as the room.
pub fn keep_arrival(tick: u32, set: u32, tasks: usize, times: &mut [u32; TIMES])
    ensures times { cut_times times.new ≡ last_put tick (lists.set (cut_times times.old) since_region (upto (since_at set tick) (min tasks state_room.tasks) (since_in times.old))) }
    ensures dated { policy_in times.old ≢ 0 → (L : ℕ) (c v : List ℕ) → state_of (min tasks state_room.tasks) L c v times.new ≡ clocked tick (arrival set) (state_of (min tasks state_room.tasks) L c v times.old) }
{
    keep_each(tick, set, few(tasks, TASKS), times);
    keep_tick(tick, times);
}

// The ticks after the finish of task `t`: its arrival tick is set back.
pub fn keep_finish(tick: u32, t: u8, times: &mut [u32; TIMES])
    ensures times { cut_times times.new ≡ last_put tick (lists.set (cut_times times.old) since_region (lists.set (since_in times.old) t 0)) }
    ensures dated { policy_in times.old ≢ 0 → (T L w : ℕ) (c v : List ℕ) → state_of T L c v times.new ≡ clocked tick (finish t w) (state_of T L c v times.old) }
{
    put_entry(times, InTimes::Since, usize::from(t), 0);
    keep_tick(tick, times);
}
