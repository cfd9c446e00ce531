// What an arrival does: the writers' part, with the phases, then the readers' part.
#![tactic(auto)]

ghost use Rattle.std.specs.Prelude.{◌≡◌, Bool, cond, ◌&&◌, ℕ, ◌≤◌, ◌<◌, min, eqb};
ghost use Rattle.lists.specs.Lists.{some};
ghost use Rattle.protocol.specs.Event.{has};
ghost use Rattle.protocol.specs.Table.{marked};
ghost use Rattle.protocol.specs.Published.{seen_once};
ghost use Rattle.protocol.specs.Free.{holds, lowest_free};
ghost use Rattle.protocol_state.specs.Saved.{at, state_room, delayed_kind};
ghost use Rattle.protocol_state.specs.Next.{arrived};
ghost use Rattle.mailbox_free.specs.Bits.{last_bit};
ghost use Rattle.mailbox_free.specs.Pattern.{AllLowest};
ghost use Rattle.mailbox_layout.specs.Layout.{Becomes, newest_in, previous_in, pointer_in, writer_in, reader_in};
ghost use Rattle.mailbox_plan.specs.Plan.{is_flagged, Planned};
ghost use Rattle.mailbox_arrival.specs.Arrives.{moved_at, moved, pointed_at, pointed};

use lists::{Test, few, some};
use mailbox_base::decision::entry;
use mailbox_base::numbers::{LINKS, TASKS, has};
use mailbox_event::Kind;
use mailbox_free::bits::{lowest_outside, taken_bit};
use mailbox_free::table::PATTERNS;
use mailbox_layout::{CONTROL, InControl, control_at, put_control};
use mailbox_plan::goes_behind;

// Whether link `l` is one of task `t`'s to readers behind, by its flag.
fn is_behind(plan: &[u8; LINKS], control: &[u8; CONTROL], t: u8, l: usize) -> bool
    ensures { result ≡ (eqb (at (writer_in control.now) l) t && is_flagged plan.now l) }
{
    (control_at(control, InControl::Writer, l) == t) & goes_behind(plan, l)
}

// The test whether a link holds position `p` of task `t`.
#[derive(Clone, Copy)]
struct Holding<'a> {
    plan: &'a [u8; LINKS],
    control: &'a [u8; CONTROL],
    t: u8,
    p: u8,
}

impl<'a> Test for Holding<'a> {
    ghost test = { λ h l. (eqb (at (writer_in h.control.now) l) h.t && is_flagged h.plan.now l) && eqb (at (pointer_in h.control.now) l) h.p };

    fn holds(&self, l: usize) -> bool {
        let control = self.control;
        is_behind(self.plan, control, self.t, l)
            & (control_at(control, InControl::Pointer, l) == self.p)
    }
}

// Whether one of the links holds position `p` of task `t`.
fn held(plan: &[u8; LINKS], control: &[u8; CONTROL], links: usize, t: u8, p: u8) -> bool
    ensures { (ahead : ℕ → ℕ → Bool) → Planned ahead (at (writer_in control.now)) (at (reader_in control.now)) links plan.now → result ≡ some (holds ahead (at (writer_in control.now)) (at (reader_in control.now)) (at (pointer_in control.now)) t p) links }
{
    let holding = Holding {
        plan,
        control,
        t,
        p,
    };
    some(links, &holding)
}

// The bits of the positions of task `t` that the links hold. From here up to `arrive` all is put in line, so that the compiler knows in this loop that
// there are no more links than there is room for, and asks several at once.
#[inline(always)]
fn held_bits(plan: &[u8; LINKS], control: &[u8; CONTROL], links: usize, t: u8) -> u16
    ensures { (ahead : ℕ → ℕ → Bool) → Planned ahead (at (writer_in control.now)) (at (reader_in control.now)) links plan.now → (p : ℕ) → p < last_bit → has result p ≡ some (holds ahead (at (writer_in control.now)) (at (reader_in control.now)) (at (pointer_in control.now)) t p) links }
{
    let mut bits = 0;
    for l in 0..links {
        bits |= taken_bit(
            is_behind(plan, control, t, l),
            control_at(control, InControl::Pointer, l),
        );
    }
    bits
}

// The lowest free position of task `t`, whose newest is `x`. Mostly no link holds the lowest position other than `x`, and one look at the
// links shows it; else it is looked up. Where the links keep the rules at most nine of ten positions are taken, so the tenth needs no test.
#[inline(always)]
fn lowest_free(
    lowest: &[u8; PATTERNS],
    plan: &[u8; LINKS],
    control: &[u8; CONTROL],
    links: usize,
    t: u8,
    x: u8,
) -> u8
    ensures { AllLowest lowest.now → (ahead : ℕ → ℕ → Bool) → Planned ahead (at (writer_in control.now)) (at (reader_in control.now)) links plan.now → result ≡ lowest_free ahead (at (writer_in control.now)) (at (reader_in control.now)) (at (pointer_in control.now)) links t x }
{
    let next = if x == 1 { 2 } else { 1 };
    if !held(plan, control, links, t, next) {
        return next;
    }
    lowest_outside(
        lowest,
        taken_bit(true, x) | held_bits(plan, control, links, t),
    )
}

// One arrival more, where no, one or more (0, 1, 2) were seen.
fn seen_once(a: u8) -> u8
    ensures { result ≡ seen_once a }
{
    if a == 0 { 1 } else { 2 }
}

// The writers' part for task `t`, where it is in the set: its newest position becomes its previous, its lowest free one its newest,
// one more of its arrivals is seen, and it is waiting.
#[inline(always)]
fn move_task(
    lowest: &[u8; PATTERNS],
    plan: &[u8; LINKS],
    set: u32,
    t: usize,
    links: usize,
    control: &mut [u8; CONTROL],
)
    requires { t < state_room.tasks }
    ensures { AllLowest lowest.now → (ahead : ℕ → ℕ → Bool) → Planned ahead (at (writer_in control.old)) (at (reader_in control.old)) links plan.now → (T : ℕ) → Becomes (moved_at ahead set t) T links control.old control.new }
{
    if !has(set, t) {
        return;
    }
    let x = control_at(control, InControl::Newest, t);
    let free = lowest_free(lowest, plan, control, links, t as u8, x);
    let phase = entry(Kind::Arrival, control_at(control, InControl::Phase, t));
    let seen = seen_once(control_at(control, InControl::Seen, t));
    put_control(control, InControl::Previous, t, x);
    put_control(control, InControl::Newest, t, free);
    put_control(control, InControl::Seen, t, seen);
    put_control(control, InControl::Phase, t, phase);
}

// The writers' part: each task of the set moves.
#[inline(always)]
fn move_tasks(
    lowest: &[u8; PATTERNS],
    plan: &[u8; LINKS],
    set: u32,
    tasks: usize,
    links: usize,
    control: &mut [u8; CONTROL],
)
    requires { tasks ≤ state_room.tasks }
    ensures { AllLowest lowest.now → (ahead : ℕ → ℕ → Bool) → Planned ahead (at (writer_in control.old)) (at (reader_in control.old)) links plan.now → (T : ℕ) → Becomes (moved ahead set tasks) T links control.old control.new }
{
    for t in 0..tasks {
        move_task(lowest, plan, set, t, links, control);
    }
}

// Where the pointer of a link from `w` of kind `k` goes: a delayed link (1) shows the writer's previous position. A kind is a number here, since a
// lent control may hold any.
fn aim(w: u8, k: u8, control: &[u8; CONTROL]) -> u8
    ensures { result ≡ cond (delayed_kind k) (at (previous_in control.now) w) (at (newest_in control.now) w) }
{
    let field = if k == 1 {
        InControl::Previous
    } else {
        InControl::Newest
    };
    control_at(control, field, w as usize)
}

// The mark of a link of kind `k` whose writer has had no, one or more arrivals: a delayed link is marked before the second.
fn mark_of(k: u8, seen: u8) -> u8
    ensures { result ≡ cond (marked (delayed_kind k) seen) 1 0 }
{
    u8::from((k == 1) & (seen < 2))
}

// The readers' part for link `l`, where its reader is in the set: its pointer, and its mark by the arrivals of its writer.
fn point_link(set: u32, l: usize, control: &mut [u8; CONTROL])
    ensures { (T L : ℕ) → Becomes (pointed_at set l) T L control.old control.new }
{
    let r = control_at(control, InControl::Reader, l);
    if !has(set, r as usize) {
        return;
    }
    let w = control_at(control, InControl::Writer, l);
    let k = control_at(control, InControl::Kind, l);
    let x = aim(w, k, control);
    let m = mark_of(k, control_at(control, InControl::Seen, w as usize));
    put_control(control, InControl::Pointer, l, x);
    put_control(control, InControl::Mark, l, m);
}

// The readers' part: the pointers and marks of the links whose reader is in the set.
fn point_links(set: u32, links: usize, control: &mut [u8; CONTROL])
    ensures { (T L : ℕ) → Becomes (pointed set links) T L control.old control.new }
{
    for l in 0..links {
        point_link(set, l, control);
    }
}

// An arrival that is allowed. The order matters: the readers' part comes after the writers'. Counts above the room are taken as the room.
// What is done is said where `lowest` is the table of free positions, under any order that the plan is right for. Both are lent so that a replay makes
// them once.
pub fn arrive(
    lowest: &[u8; PATTERNS],
    plan: &[u8; LINKS],
    set: u32,
    tasks: usize,
    links: usize,
    control: &mut [u8; CONTROL],
)
    ensures { AllLowest lowest.now → (ahead : ℕ → ℕ → Bool) → Planned ahead (at (writer_in control.old)) (at (reader_in control.old)) (min links state_room.links) plan.now → Becomes (arrived ahead set) (min tasks state_room.tasks) (min links state_room.links) control.old control.new }
{
    let n = few(links, LINKS);
    move_tasks(lowest, plan, set, few(tasks, TASKS), n, control);
    point_links(set, n, control);
}
