// The last step of a recording, after its last event: what is still active is refused. It is for the reader, after the bytes have ended, and for the
// writer, before it looks for room; neither takes it yet.
#![tactic(auto)]

ghost use Rattle.std.specs.Prelude.{◌≡◌, cond, eqb};
ghost use Rattle.lists.specs.Lists.{some};
ghost use Rattle.protocol_state.specs.Saved.{at, active_phase};
ghost use Rattle.mailbox_layout.specs.Layout.{phase_in};
ghost use Rattle.recording_core.specs.Playing.{unfinished};

use lists::{Test, some};
use mailbox_base::decision::IDLE;
use mailbox_layout::{CONTROL, InControl, control_at};
use refusals::Refusal;

// The test whether a task is active, waiting or running: it has arrived and not finished.
#[derive(Clone, Copy)]
struct Active<'a> {
    control: &'a [u8; CONTROL],
}

impl<'a> Test for Active<'a> {
    ghost test = { λ a t. active_phase (at (phase_in a.control.now) t) };

    fn holds(&self, t: usize) -> bool {
        let control = self.control;
        control_at(control, InControl::Phase, t) != IDLE
    }
}

// Whether a task of a state is active.
fn some_active(tasks: usize, control: &[u8; CONTROL]) -> bool
    ensures { result ≡ some (λ t. active_phase (at (phase_in control.now) t)) tasks }
{
    some(tasks, &Active { control })
}

// The refusal after the last step, 0 for none: one that was given before it stays; else 25 where a task is still active. A number, since any that
// was given stays.
pub fn lastly(refusal: u8, tasks: usize, control: &[u8; CONTROL]) -> u8
    ensures { result ≡ cond (eqb refusal 0) (unfinished tasks (at (phase_in control.now))) refusal }
{
    match refusal {
        0 if some_active(tasks, control) => u8::from(Refusal::Unfinished),
        _ => refusal,
    }
}
