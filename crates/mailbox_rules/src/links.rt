// What the first links of a table, no more than there is room for, say of one link more, and of a task.
ghost use Rattle.std.specs.Prelude.{◌≡◌, Bool, cond, ◌&&◌, ℕ, ◌+◌, ◌≤◌, ◌<◌, min, eqb, set};
ghost use Rattle.lists.specs.Lists.{some};
ghost use Rattle.protocol.specs.Table.{behinds};
ghost use Rattle.protocol_state.specs.Saved.{at, state_room};
ghost use Rattle.mailbox_layout.specs.Layout.{writer_in, reader_in};
ghost use Rattle.mailbox_plan.specs.Plan.{Planned};

use lists::{Test, few, some};
use mailbox_base::numbers::{LINKS, TASKS};
use mailbox_layout::{CONTROL, InControl, control_at};
use mailbox_plan::goes_behind;

// The test whether a link goes from `w` to `r`.
#[derive(Clone, Copy)]
struct Between<'a> {
    control: &'a [u8; CONTROL],
    w: u8,
    r: u8,
}

impl<'a> Test for Between<'a> {
    ghost test = { λ b j. eqb (at (writer_in b.control.now) j) b.w && eqb (at (reader_in b.control.now) j) b.r };

    fn holds(&self, l: usize) -> bool {
        let control = self.control;
        (control_at(control, InControl::Writer, l) == self.w)
            & (control_at(control, InControl::Reader, l) == self.r)
    }
}

// Whether one of the first `n` links goes from `w` to `r`.
pub fn has_pair(control: &[u8; CONTROL], n: usize, w: u8, r: u8) -> bool
    ensures { result ≡ some (λ j. eqb (at (writer_in control.now) j) w && eqb (at (reader_in control.now) j) r) (min n state_room.links) }
{
    some(few(n, LINKS), &Between { control, w, r })
}

// N: how many of the first `n` links are task `t`'s to readers behind, by their plan.
pub fn readers_behind(plan: &[u8; LINKS], control: &[u8; CONTROL], n: usize, t: usize) -> usize
    ensures count { (ahead : ℕ → ℕ → Bool) → Planned ahead (at (writer_in control.now)) (at (reader_in control.now)) (min n state_room.links) plan.now → result ≡ behinds ahead (at (writer_in control.now)) (at (reader_in control.now)) t (min n state_room.links) }
    ensures bound { result ≤ state_room.links }
{
    // In a byte, so that the compiler asks sixteen links at once: for a count as wide as a place, as `lists::count` has it, it asks four.
    let mut c: u8 = 0;
    for l in 0..few(n, LINKS) {
        c += u8::from(
            (control_at(control, InControl::Writer, l) as usize == t) & goes_behind(plan, l),
        );
    }
    usize::from(c)
}

// N of task `t` by the counts; 0 for a task that there is no room for.
pub fn count_at(counts: &[u8; TASKS], t: usize) -> u8
    ensures { result ≡ at counts.now t }
{
    counts.get(t).copied().unwrap_or(0)
}

// Counts a link of task `w`, where it goes to a reader behind and there is room for such a task.
pub(crate) fn count_link(counts: &mut [u8; TASKS], w: usize, behind: bool)
    requires { w < state_room.tasks → at counts.old w < state_room.links }
    ensures { counts.new ≡ set counts.old w (at counts.old w + cond behind 1 0) }
{
    if w < TASKS {
        counts[w] += u8::from(behind);
    }
}
