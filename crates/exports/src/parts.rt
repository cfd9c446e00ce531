// The lent parts of a state.
ghost use Rattle.std.specs.Prelude.{◌≡◌};
ghost use Rattle.mailbox.specs.States.{saved};
ghost use Rattle.mailbox_layout.specs.Layout.{state_of};

use mailbox::State;
use mailbox_layout::{CONTROL, TIMES, VALUES};

// Puts a state into the lent parts.
pub(crate) fn put_state(
    q: State,
    tasks: &mut usize,
    links: &mut usize,
    control: &mut [u8; CONTROL],
    values: &mut [u32; VALUES],
    times: &mut [u32; TIMES],
)
    ensures { state_of tasks.new links.new control.new values.new times.new ≡ saved q }
{
    *tasks = q.tasks;
    *links = q.links;
    let kept = q.control;
    *control = kept;
    let kept = q.values;
    *values = kept;
    let kept = q.times;
    *times = kept;
}
