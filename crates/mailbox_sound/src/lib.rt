// Soundness of a state, on its lent arrays: what refusal 19 tests. Phases, kinds of link and policies are numbers here, since a state that is
// handed over may hold any.
#![tactic(auto)]

ghost use Rattle.std.specs.Prelude.{◌≡◌, Bool, List, [], ℕ, ◌≤◌, ◌<◌, min};
ghost use Rattle.lists.specs.Lists.{every};
ghost use Rattle.protocol_state.specs.Saved.{at, state_room};
ghost use Rattle.protocol_state.specs.Sound.{within, task_is, seen_is, since_is, deadline_is, clock_is, mark_is, time_ok, mark_ok, task_stands, link_stands, is_sound};
ghost use Rattle.mailbox_layout.specs.Layout.{phase_in, newest_in, previous_in, pointer_in, writer_in, reader_in, ahead_among, state_of};
ghost use Rattle.mailbox_plan.specs.Plan.{is_flagged, Planned};
ghost use Rattle.mailbox_rules.specs.CountsBehind.{CountsBehind};
ghost use Rattle.mailbox_sound.specs.AtHand.{in_arrays, pointer_by, task_by, link_by};

use lists::{Test, every};
use mailbox_base::numbers::{LINKS, MOST_TICK, TASKS};
use mailbox_layout::{CONTROL, InControl, InTimes, TIMES, VALUES, control_at, entry_at};
use mailbox_plan::goes_behind;
use mailbox_rules::links::count_at;
use mailbox_rules::table::judge_table;

// Whether `y` is one of a task's positions, 1 to `n` + 2.
fn is_within(n: u8, y: u8) -> bool
    ensures { result ≡ within n y }
{
    (1 <= y) & (y as usize <= n as usize + 2)
}

// Whether a task with `n` links to readers behind may have this phase and these positions.
fn task_is(phase: u8, newest: u8, previous: u8, n: u8) -> bool
    ensures { result ≡ task_is phase newest previous n }
{
    (phase < 3) & (is_within(n, newest) & is_within(n, previous))
}

// Whether a task with this phase may have had so many arrivals: no, one or more (0, 1, 2), and without any it is idle.
fn seen_is(phase: u8, seen: u8) -> bool
    ensures { result ≡ seen_is phase seen }
{
    (seen < 3) & (!(seen == 0) | (phase == 0))
}

// Whether task `t` has a phase and positions that it may have, by the counts of links to readers behind.
fn task_ok(counts: &[u8; TASKS], control: &[u8; CONTROL], t: usize) -> bool
    ensures { result ≡ task_is (at (phase_in control.now) t) (at (newest_in control.now) t) (at (previous_in control.now) t) (at counts.now t) }
{
    task_is(
        control_at(control, InControl::Phase, t),
        control_at(control, InControl::Newest, t),
        control_at(control, InControl::Previous, t),
        count_at(counts, t),
    )
}

// Whether a task with this phase may have the arrival tick `y`, where the last tick is `z`: up to it for an active job, 0 for an idle task.
fn since_is(phase: u8, y: u32, z: u32) -> bool
    ensures { result ≡ since_is phase y z }
{
    let latest = if phase == 0 { 0 } else { z };
    y <= latest
}

// Whether a task may have this relative deadline: none under fixed priorities, else not 0.
fn deadline_is(policy: u32, d: u32) -> bool
    ensures { result ≡ deadline_is policy d }
{
    if policy == 0 { d == 0 } else { 1 <= d }
}

// Whether task `t` has an arrival tick and a relative deadline that it may have.
fn time_ok(control: &[u8; CONTROL], times: &[u32; TIMES], t: usize) -> bool
    ensures { result ≡ time_ok (in_arrays control.now times.now) t }
{
    let phase = control_at(control, InControl::Phase, t);
    let since_stands = since_is(
        phase,
        entry_at(times, InTimes::Since, t),
        entry_at(times, InTimes::Last, 0),
    );
    let deadline_stands = deadline_is(
        entry_at(times, InTimes::Policy, 0),
        entry_at(times, InTimes::Deadline, t),
    );
    since_stands & deadline_stands
}

// Whether there is such a policy, and the last tick may be: none under fixed priorities, and none above the limit.
fn clock_is(policy: u32, last: u32) -> bool
    ensures { result ≡ clock_is policy last }
{
    if policy == 0 {
        last == 0
    } else {
        (policy <= 1) & (last <= MOST_TICK)
    }
}

// Whether task `t` is as it may be.
fn task_stands(
    counts: &[u8; TASKS],
    control: &[u8; CONTROL],
    times: &[u32; TIMES],
    t: usize,
) -> bool
    ensures { result ≡ task_by counts.now (in_arrays control.now times.now) t }
{
    let seen_stands = seen_is(
        control_at(control, InControl::Phase, t),
        control_at(control, InControl::Seen, t),
    );
    let time_stands = time_ok(control, times, t);
    task_ok(counts, control, t) & (seen_stands & time_stands)
}

// The test whether a task is as it may be.
#[derive(Clone, Copy)]
struct TaskStands<'a> {
    counts: &'a [u8; TASKS],
    control: &'a [u8; CONTROL],
    times: &'a [u32; TIMES],
}

impl<'a> Test for TaskStands<'a> {
    ghost test = { λ s. task_by s.counts.now (in_arrays s.control.now s.times.now) };

    fn holds(&self, t: usize) -> bool {
        task_stands(self.counts, self.control, self.times, t)
    }
}

// Whether each task is as it may be.
fn tasks_stand(
    counts: &[u8; TASKS],
    tasks: usize,
    control: &[u8; CONTROL],
    times: &[u32; TIMES],
) -> bool
    ensures { tasks ≤ state_room.tasks → (ahead : ℕ → ℕ → Bool) (L : ℕ) → CountsBehind ahead (at (writer_in control.now)) (at (reader_in control.now)) L counts.now → (T : ℕ) (v : List ℕ) → result ≡ every (task_stands ahead (state_of T L control.now v times.now)) tasks }
{
    let stands = TaskStands {
        counts,
        control,
        times,
    };
    every(tasks, &stands)
}

// Whether a link, to a reader behind or not, may have the pointer `y`, where the reader has this phase and the writer `n` links to readers
// behind: present where the reader is active, absent where it is idle and the writer ahead of it.
fn pointer_is(behind: bool, y: u8, phase: u8, n: u8) -> bool
    ensures { result ≡ pointer_by behind y phase n }
{
    let presence_stands = if phase == 0 {
        !behind | (y == 0)
    } else {
        1 <= y
    };
    (y as usize <= n as usize + 2) & presence_stands
}

// Whether link `l` has a pointer that it may have: its reader's phase is looked up, and its writer's count.
fn pointer_ok(counts: &[u8; TASKS], plan: &[u8; LINKS], control: &[u8; CONTROL], l: usize) -> bool
    ensures { result ≡ pointer_by (is_flagged plan.now l) (at (pointer_in control.now) l) (at (phase_in control.now) (at (reader_in control.now) l)) (at counts.now (at (writer_in control.now) l)) }
{
    let w = control_at(control, InControl::Writer, l);
    let r = control_at(control, InControl::Reader, l);
    let phase = control_at(control, InControl::Phase, r as usize);
    let n = count_at(counts, w as usize);
    let behind = goes_behind(plan, l);
    pointer_is(behind, control_at(control, InControl::Pointer, l), phase, n)
}

// Whether a link of kind `k` with pointer `y` may have the mark `m`, where its writer has had so many arrivals: at a present pointer of a
// delayed link a mark until the writer's second arrival, and from then on either; elsewhere none.
fn mark_is(k: u8, y: u8, seen: u8, m: u8) -> bool
    ensures { result ≡ mark_is k y seen m }
{
    if (k == 1) & (1 <= y) {
        if seen < 2 { m == 1 } else { m <= 1 }
    } else {
        m == 0
    }
}

// Whether link `l` has a mark that it may have: its writer's arrivals are looked up.
fn mark_ok(control: &[u8; CONTROL], l: usize) -> bool
    ensures { result ≡ mark_ok (in_arrays control.now []) l }
{
    let w = control_at(control, InControl::Writer, l);
    let seen = control_at(control, InControl::Seen, w as usize);
    mark_is(
        control_at(control, InControl::Kind, l),
        control_at(control, InControl::Pointer, l),
        seen,
        control_at(control, InControl::Mark, l),
    )
}

// Whether link `l` is as it may be.
fn link_stands(counts: &[u8; TASKS], plan: &[u8; LINKS], control: &[u8; CONTROL], l: usize) -> bool
    ensures { result ≡ link_by counts.now plan.now (in_arrays control.now []) l }
{
    let mark_stands = mark_ok(control, l);
    pointer_ok(counts, plan, control, l) & mark_stands
}

// The test whether a link is as it may be.
#[derive(Clone, Copy)]
struct LinkStands<'a> {
    counts: &'a [u8; TASKS],
    plan: &'a [u8; LINKS],
    control: &'a [u8; CONTROL],
}

impl<'a> Test for LinkStands<'a> {
    ghost test = { λ s. link_by s.counts.now s.plan.now (in_arrays s.control.now []) };

    fn holds(&self, l: usize) -> bool {
        link_stands(self.counts, self.plan, self.control, l)
    }
}

// Whether each link is as it may be, where there is room for the writers.
fn links_stand(
    counts: &[u8; TASKS],
    plan: &[u8; LINKS],
    links: usize,
    control: &[u8; CONTROL],
) -> bool
    ensures { ((l : ℕ) → l < links → at (writer_in control.now) l < state_room.tasks) → (ahead : ℕ → ℕ → Bool) → Planned ahead (at (writer_in control.now)) (at (reader_in control.now)) links plan.now → CountsBehind ahead (at (writer_in control.now)) (at (reader_in control.now)) links counts.now → (T : ℕ) (v x : List ℕ) → result ≡ every (link_stands ahead (state_of T links control.now v x)) links }
{
    let stands = LinkStands {
        counts,
        plan,
        control,
    };
    every(links, &stands)
}

// Whether a state is sound: its table keeps the rules, and its clock, each task and each link is as it may be. The plan of its links is lent;
// how many links to readers behind each task has is counted once, while the table is judged.
pub fn is_sound(
    plan: &[u8; LINKS],
    tasks: usize,
    links: usize,
    control: &[u8; CONTROL],
    values: &[u32; VALUES],
    times: &[u32; TIMES],
) -> bool
    ensures { Planned (ahead_among times.now) (at (writer_in control.now)) (at (reader_in control.now)) (min links state_room.links) plan.now → result ≡ is_sound (ahead_among times.now) state_room (state_of tasks links control.now values.now times.now) }
{
    let mut counts = [0u8; TASKS];
    if judge_table(&mut counts, plan, tasks, links, control, values).is_err() {
        return false;
    }
    let clock_stands = clock_is(
        entry_at(times, InTimes::Policy, 0),
        entry_at(times, InTimes::Last, 0),
    );
    let each_task_stands = tasks_stand(&counts, tasks, control, times);
    let each_link_stands = links_stand(&counts, plan, links, control);
    clock_stands & (each_task_stands & each_link_stands)
}
