// What a start, a read and a finish do.
#![tactic(auto)]

ghost use Rattle.std.specs.Prelude.{◌≡◌, Bool, cond, ◌&&◌, List, ℕ, ◌<◌, min, eqb};
ghost use Rattle.protocol_state.specs.Saved.{at, state_room};
ghost use Rattle.protocol_state.specs.Next.{number_read, released, finished};
ghost use Rattle.mailbox_event.specs.Plain.{row};
ghost use Rattle.mailbox_layout.specs.Layout.{Becomes, state_of, writer_in, reader_in, pointer_in, mark_in, start_value_in, cells_in};
ghost use Rattle.mailbox_plan.specs.Plan.{Planned};
ghost use Rattle.mailbox_finish.specs.Frees.{freed_one, freed_first, advanced};

use lists::few;
use mailbox_base::decision::entry;
use mailbox_base::numbers::LINKS;
use mailbox_event::Kind;
use mailbox_layout::{
    CONTROL, InControl, InValues, VALUES, cell_at, control_at, entry_at, put_cell, put_control,
};
use mailbox_plan::flag_is_one;

// The next phase of task `t`, at an event of this kind.
pub fn advance(kind: Kind, t: u8, control: &mut [u8; CONTROL])
    ensures { (T L : ℕ) → Becomes (advanced (row kind) t) T L control.old control.new }
{
    let i = t as usize;
    let next = entry(kind, control_at(control, InControl::Phase, i));
    put_control(control, InControl::Phase, i, next);
}

// The number that link `l` reads: its start value where it is marked, else the one at its pointer in its writer's positions.
pub fn number_of(l: u8, control: &[u8; CONTROL], values: &[u32; VALUES]) -> u32
    ensures { result ≡ number_read l (at (writer_in control.now)) (at (pointer_in control.now)) (at (mark_in control.now)) (at (start_value_in values.now)) (at (cells_in values.now)) }
{
    let i = l as usize;
    if control_at(control, InControl::Mark, i) == 1 {
        return entry_at(values, InValues::StartValue, i);
    }
    cell_at(
        values,
        control_at(control, InControl::Writer, i),
        control_at(control, InControl::Pointer, i),
    )
}

// What becomes of the pointer or mark `x` of a link to `r` with this flag, as `t` finishes.
fn freed_at(t: u8, r: u8, behind: bool, x: u8) -> u8
    ensures { result ≡ cond (eqb r t && behind) 0 x }
{
    if (r == t) & behind { 0 } else { x }
}

// The pointer of link `l` becomes absent and its mark goes, if `t` reads by it from a writer ahead of it.
fn free_link(plan: &[u8; LINKS], t: u8, l: usize, control: &mut [u8; CONTROL])
    ensures { (ahead : ℕ → ℕ → Bool) (n : ℕ) → Planned ahead (at (writer_in control.old)) (at (reader_in control.old)) n plan.now → l < n → (T L : ℕ) → Becomes (freed_one ahead t l) T L control.old control.new }
{
    let r = control_at(control, InControl::Reader, l);
    let behind = flag_is_one(plan, l);
    let x = freed_at(t, r, behind, control_at(control, InControl::Pointer, l));
    let m = freed_at(t, r, behind, control_at(control, InControl::Mark, l));
    put_control(control, InControl::Pointer, l, x);
    put_control(control, InControl::Mark, l, m);
}

// The pointers by which `t` reads from writers ahead of it become absent, and their marks go.
fn free_links(plan: &[u8; LINKS], t: u8, links: usize, control: &mut [u8; CONTROL])
    ensures { (ahead : ℕ → ℕ → Bool) → Planned ahead (at (writer_in control.old)) (at (reader_in control.old)) links plan.now → (T L : ℕ) → Becomes (freed_first ahead t links) T L control.old control.new }
{
    for l in 0..links {
        free_link(plan, t, l, control);
    }
}

// What a finish that is allowed does to the control: pointers become absent, their marks go, and `t` is idle.
// A count above the room is taken as the room. It is said under any order that the plan is right for.
pub fn release(plan: &[u8; LINKS], t: u8, links: usize, control: &mut [u8; CONTROL])
    ensures { (ahead : ℕ → ℕ → Bool) → Planned ahead (at (writer_in control.old)) (at (reader_in control.old)) (min links state_room.links) plan.now → (T : ℕ) → Becomes (released ahead t) T (min links state_room.links) control.old control.new }
{
    free_links(plan, t, few(links, LINKS), control);
    advance(Kind::Finish, t, control);
}

// A finish that is allowed: the value goes to the newest position besides.
pub fn finish(
    plan: &[u8; LINKS],
    t: u8,
    v: u32,
    links: usize,
    control: &mut [u8; CONTROL],
    values: &mut [u32; VALUES],
)
    ensures { (ahead : ℕ → ℕ → Bool) → Planned ahead (at (writer_in control.old)) (at (reader_in control.old)) (min links state_room.links) plan.now → (T : ℕ) (x : List ℕ) → state_of T (min links state_room.links) control.new values.new x ≡ finished ahead t v (state_of T (min links state_room.links) control.old values.old x) }
{
    put_cell(
        values,
        t,
        control_at(control, InControl::Newest, t as usize),
        v,
    );
    release(plan, t, links, control);
}
