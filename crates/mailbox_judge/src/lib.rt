// The refusals 12 to 16 of a sound state, tried in rising order, under fixed priorities and with deadlines, ticks left aside. Counts above the room
// are taken as the room.
#![tactic(auto)]

ghost use Rattle.std.specs.Prelude.{◌≡◌, MatchResult, Bool, ◌&&◌, ◌||◌, not, ℕ, ◌+◌, ◌<◌, ◌≤◌, min};
ghost use Rattle.refusals.specs.declared.Refusal.TheVariants.{Outside};
ghost use Rattle.refusals.specs.Numbers.{told};
ghost use Rattle.lists.specs.Lists.{every, some};
ghost use Rattle.protocol.specs.Event.{has};
ghost use Rattle.protocol_deadlines.specs.Deadline.{smaller};
ghost use Rattle.protocol_state.specs.Records.{earlier};
ghost use Rattle.protocol_state.specs.Saved.{at, state_room, active_phase};
ghost use Rattle.protocol_state.specs.Decision.{decided};
ghost use Rattle.protocol_state.specs.Judge.{allows, may_arrive, preempted, judged_arrival, judged_task, judged_read};
ghost use Rattle.mailbox_event.specs.Plain.{row};
ghost use Rattle.mailbox_layout.specs.Layout.{phase_in, reader_in, deadline_in, since_in, ahead_among, sooner_among};

use lists::{Test, every, few, some};
use mailbox_base::decision::{IDLE, decide};
use mailbox_base::numbers::{LINKS, TASKS, has};
use mailbox_event::Kind;
use mailbox_layout::{CONTROL, InControl, InTimes, TIMES, control_at, entry_at, phases_in};
use mailbox_plan::is_ahead;
use refusals::Refusal;

// Whether task `t` with this phase may arrive with the set: it is not in it, or its phase allows it.
fn may_arrive(set: u32, t: usize, phase: u8) -> bool
    ensures { result ≡ (not (has set t) || allows (decided 0 phase)) }
{
    !has(set, t) || decide(Kind::Arrival, phase).is_ok()
}

// The test whether a task may arrive with the set.
#[derive(Clone, Copy)]
struct MayArrive<'a> {
    set: u32,
    control: &'a [u8; CONTROL],
}

impl<'a> Test for MayArrive<'a> {
    ghost test = { λ m. may_arrive m.set (at (phase_in m.control.now)) };

    fn holds(&self, t: usize) -> bool {
        let control = self.control;
        may_arrive(self.set, t, control_at(control, InControl::Phase, t))
    }
}

// Whether each task of the set may arrive.
fn all_may(set: u32, tasks: usize, control: &[u8; CONTROL]) -> bool
    ensures { result ≡ every (may_arrive set (at (phase_in control.now))) tasks }
{
    every(tasks, &MayArrive { set, control })
}

// Whether an arrival is allowed: 12 for the empty set and for a task that is none of the table's.
pub fn judge_arrival(set: u32, tasks: usize, control: &[u8; CONTROL]) -> Result<(), Refusal>
    ensures { told result ≡ judged_arrival set (min tasks state_room.tasks) (at (phase_in control.now)) }
{
    let n = few(tasks, TASKS);
    // With room for 32 tasks no bit of 32 is spare: the shift is one of 64.
    if (set == 0) | (u64::from(set) >> n != 0) {
        return Err(Refusal::Outside);
    }
    if !all_may(set, n, control) {
        return Err(Refusal::StillActive);
    }
    Ok(())
}

// Whether a task with this phase is unfinished.
fn is_active(phase: u8) -> bool
    ensures { result ≡ active_phase phase }
{
    phase != IDLE
}

// The test whether a task is active, by the region of the phases.
#[derive(Clone, Copy)]
struct Active<'a> {
    phase: &'a [u8],
}

impl<'a> Test for Active<'a> {
    ghost test = { λ a u. active_phase (at a.phase.now u) };

    fn holds(&self, u: usize) -> bool {
        let phase = self.phase;
        is_active(phase.get(u).copied().unwrap_or(IDLE))
    }
}

// Whether a task before `t`, one ahead of it, is active. It asks no more tasks than there are phases, so that the compiler needs no test whether there is
// such a place, and asks several tasks at once.
fn some_before(t: usize, phase: &[u8]) -> bool
    ensures { result ≡ some (λ u. active_phase (at phase.now u)) t }
{
    some(few(t, phase.len()), &Active { phase })
}

// When the job of task `t` is due: the tick of its arrival, and its relative deadline.
pub fn due_at(times: &[u32; TIMES], t: usize) -> u64
    ensures { result ≡ at (since_in times.now) t + at (deadline_in times.now) t }
{
    u64::from(entry_at(times, InTimes::Since, t)) + u64::from(entry_at(times, InTimes::Deadline, t))
}

// Whether the job of task `u` goes before one of task `t` that is due then: it is due earlier, ties by the order of tasks. Few jobs are due at
// one tick, so the order of tasks is asked for only then.
fn is_sooner(times: &[u32; TIMES], u: usize, t: usize, due: u64) -> bool
    ensures { result ≡ smaller (at (since_in times.now) u + at (deadline_in times.now) u) due (ahead_among times.now u t) }
{
    let x = due_at(times, u);
    if x == due {
        is_ahead(times, u, t)
    } else {
        x < due
    }
}

// Whether task `u`, with this phase, is active and its job goes before that of `t`. Who is idle is passed over before anything is asked of its times.
fn goes_first(times: &[u32; TIMES], u: usize, phase: u8, t: usize, due: u64) -> bool
    ensures { result ≡ (smaller (at (since_in times.now) u + at (deadline_in times.now) u) due (ahead_among times.now u t) && active_phase phase) }
{
    is_active(phase) && is_sooner(times, u, t, due)
}

// Whether the job of a task that goes before that of `t` is active. Its loop stands here, and is not that of `lists::some`: mostly a task is idle, and
// for such a one nothing else is done.
fn some_sooner(t: usize, tasks: usize, control: &[u8; CONTROL], times: &[u32; TIMES]) -> bool
    ensures { result ≡ some (λ u. sooner_among times.now u t && active_phase (at (phase_in control.now) u)) tasks }
{
    let due = due_at(times, t);
    let phase = phases_in(control);
    let mut found = false;
    for u in 0..few(tasks, phase.len()) {
        if goes_first(times, u, phase[u], t, due) {
            found = true;
        }
    }
    found
}

// Whether a start, a read or a finish by task `t` is allowed, where `waits` says whether an active job goes before its own. Its phase is asked
// before the others: what is refused by its phase needs no search, and of an event that is then done the compiler asks for the phase once. It is put
// in line, where its kind is known: called, it would look the kind up at each event.
#[inline(always)]
fn judge_by<F: Fn(usize) -> bool>(
    waits: F,
    kind: Kind,
    t: u8,
    tasks: usize,
    control: &[u8; CONTROL],
) -> Result<(), Refusal>
    requires { F.pre waits t }
    ensures { (before : ℕ → ℕ → Bool) → (t < min tasks state_room.tasks → (b : Bool) → F.post waits t b → b ≡ preempted before t (min tasks state_room.tasks) (at (phase_in control.now))) → told result ≡ judged_task before (row kind) t (min tasks state_room.tasks) (at (phase_in control.now)) }
{
    let i = usize::from(t);
    if few(tasks, TASKS) <= i {
        return Err(Refusal::Outside);
    }
    decide(kind, control_at(control, InControl::Phase, i))?;
    if waits(i) {
        return Err(Refusal::MoreUrgent);
    }
    Ok(())
}

// The same under fixed priorities.
pub fn judge_task(kind: Kind, t: u8, tasks: usize, control: &[u8; CONTROL]) -> Result<(), Refusal>
    ensures { told result ≡ judged_task earlier (row kind) t (min tasks state_room.tasks) (at (phase_in control.now)) }
{
    let waits = |i| some_before(i, phases_in(control));
    judge_by(waits, kind, t, tasks, control)
}

// With deadlines, ticks left aside: the job that is due earlier goes before, ties by the order of tasks. In line, likewise.
#[inline(always)]
pub fn judge_job(
    kind: Kind,
    t: u8,
    tasks: usize,
    control: &[u8; CONTROL],
    times: &[u32; TIMES],
) -> Result<(), Refusal>
    ensures { told result ≡ judged_task (sooner_among times.now) (row kind) t (min tasks state_room.tasks) (at (phase_in control.now)) }
{
    let n = few(tasks, TASKS);
    let waits = |i| some_sooner(i, n, control, times);
    judge_by(waits, kind, t, tasks, control)
}

// The reader of link `l`: it is the task that reads. 12 where there is no such link.
fn reader_of(l: u8, links: usize, control: &[u8; CONTROL]) -> Result<u8, Refusal>
    ensures { MatchResult result (λ r. (l < min links state_room.links) × (r ≡ at (reader_in control.now) l)) (λ why. (min links state_room.links ≤ l) × (why ≡ Outside)) }
{
    let i = usize::from(l);
    if few(links, LINKS) <= i {
        return Err(Refusal::Outside);
    }
    Ok(control_at(control, InControl::Reader, i))
}

// Whether a read by link `l` is allowed under fixed priorities.
pub fn judge_read(l: u8, tasks: usize, links: usize, control: &[u8; CONTROL]) -> Result<(), Refusal>
    ensures { told result ≡ judged_read earlier l (min tasks state_room.tasks) (min links state_room.links) (at (reader_in control.now)) (at (phase_in control.now)) }
{
    let reader = reader_of(l, links, control)?;
    judge_task(Kind::Read, reader, tasks, control)
}

// With deadlines, ticks left aside.
pub fn judge_job_read(
    l: u8,
    tasks: usize,
    links: usize,
    control: &[u8; CONTROL],
    times: &[u32; TIMES],
) -> Result<(), Refusal>
    ensures { told result ≡ judged_read (sooner_among times.now) l (min tasks state_room.tasks) (min links state_room.links) (at (reader_in control.now)) (at (phase_in control.now)) }
{
    let reader = reader_of(l, links, control)?;
    judge_job(Kind::Read, reader, tasks, control, times)
}
