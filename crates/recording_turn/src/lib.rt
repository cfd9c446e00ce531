// What the events of a replay leave: how far they went, why they ended there, and the counts. The laws of a turn are over both policies.
#![tactic(auto)]

ghost use Rattle.std.specs.Prelude.{◌≡◌, Ok};
ghost use Rattle.recording_core.specs.Playing.{no_counts};
ghost use Rattle.recording_turn.specs.Parts.{counts_of};

use crate::counts::Counts;
use refusals::Refusal;

pub mod counts;

// How events ended: none of them refused, and the place after the last, or why one was refused, and its place; and the counts of those before.
#[derive(Clone, Copy, Debug, PartialEq, Eq)]
pub struct Played {
    pub ended: Result<(), Refusal>,
    pub place: usize,
    pub counts: Counts,
}

// No event was played, from a place on.
pub fn unplayed(place: usize) -> Played
    ensures { (result.ended ≡ Ok tt) × (result.place ≡ place) × (counts_of result.counts ≡ no_counts) }
{
    Played {
        ended: Ok(()),
        place,
        counts: Counts::default(),
    }
}
