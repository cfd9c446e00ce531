// A region of a state's arrays by its number, for who has a number and no name for the field. Any number is one: a region past the last begins
// where the array ends and has no places, so nothing stands there, and nothing is put.
ghost use Rattle.mailbox_layout.specs.Layout.{control_widths, value_widths, time_widths};

use crate::{BY_LINK, BY_TASK, CELLS_FROM, CONTROL, Field, TIMES, VALUES};
use mailbox_base::numbers::{CELLS, LINKS, TASKS};

// A region of the control,
#[derive(Clone, Copy, Debug, PartialEq, Eq)]
pub struct ControlRegion(pub usize);

// of the values,
#[derive(Clone, Copy, Debug, PartialEq, Eq)]
pub struct ValueRegion(pub usize);

// and of the times.
#[derive(Clone, Copy, Debug, PartialEq, Eq)]
pub struct TimeRegion(pub usize);

impl Field for ControlRegion {
    ghost widths = { control_widths };

    ghost number = { λ r. r.0 };

    #[tactic(auto, using(crate::proofs::Places::task_start, crate::proofs::Places::link_start, crate::proofs::Places::no_region_start))]
    fn start(self) -> usize {
        match self.0 {
            k if k < BY_TASK => k * TASKS,
            k if k < BY_TASK + BY_LINK => BY_TASK * TASKS + (k - BY_TASK) * LINKS,
            _ => CONTROL,
        }
    }

    #[tactic(auto, using(crate::proofs::Places::task_width_lem, crate::proofs::Places::link_width_lem, crate::proofs::Places::no_region_width))]
    fn width(self) -> usize {
        match self.0 {
            k if k < BY_TASK => TASKS,
            k if k < BY_TASK + BY_LINK => LINKS,
            _ => 0,
        }
    }
}

impl Field for ValueRegion {
    ghost widths = { value_widths };

    ghost number = { λ r. r.0 };

    #[tactic(auto, using(crate::proofs::Places::no_values_start), unfolding(regions::specs::Regions::start))]
    fn start(self) -> usize {
        match self.0 {
            0 => 0,
            1 => TASKS,
            2 => CELLS_FROM,
            _ => VALUES,
        }
    }

    #[tactic(auto, using(crate::proofs::Places::no_values_width))]
    fn width(self) -> usize {
        match self.0 {
            0 => TASKS,
            1 => LINKS,
            2 => CELLS,
            _ => 0,
        }
    }
}

impl Field for TimeRegion {
    ghost widths = { time_widths };

    ghost number = { λ r. r.0 };

    #[tactic(auto, using(crate::proofs::Places::time_start, crate::proofs::Places::one_start, crate::proofs::Places::no_time_start))]
    fn start(self) -> usize {
        match self.0 {
            k if k < 2 => k * TASKS,
            k if k < 4 => 2 * TASKS + (k - 2),
            _ => TIMES,
        }
    }

    #[tactic(auto, using(crate::proofs::Places::time_width, crate::proofs::Places::one_width, crate::proofs::Places::no_time_width))]
    fn width(self) -> usize {
        match self.0 {
            k if k < 2 => TASKS,
            k if k < 4 => 1,
            _ => 0,
        }
    }
}
