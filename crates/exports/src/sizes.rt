// How large the parts of a state are in this library.
ghost use Rattle.std.specs.Prelude.{◌≡◌, [], ◌∷◌};
ghost use Rattle.protocol_state.specs.Saved.{state_room};
ghost use Rattle.mailbox_layout.specs.Layout.{control_size, value_size, time_size};

use mailbox_base::numbers::{LINKS, TASKS};
use mailbox_layout::{CONTROL, TIMES, VALUES};

// How many sizes there are.
pub const SIZES: usize = 5;

// The room of a state, so many tasks and links; the bytes of its control, and the numbers of its values and of its times. This call alone has no
// room in its name: a host may ask any library for it.
pub fn parnusild_sizes(sizes: &mut [usize; SIZES])
    ensures { sizes.new ≡ state_room.tasks ∷ state_room.links ∷ control_size ∷ value_size ∷ time_size ∷ [] }
{
    *sizes = [TASKS, LINKS, CONTROL, VALUES, TIMES];
}
