// The replay of a whole recording, into a lent state.
ghost use Rattle.byte_format.specs.Number.{Bytes};
ghost use Rattle.mailbox_layout.specs.Layout.{state_of};
ghost use Rattle.exports.specs.Replayed.{Replayed};

use crate::parts::put_state;
use mailbox_layout::{CONTROL, TIMES, VALUES};

// Arrivals task by task, starts, reads, finishes.
pub const COUNTS: usize = 4;

// The answer to a whole recording: the refusal, its place, the four counts and the state after the last accepted event; the numbers
// read stand first in the lent list. Each entry of the lent recording is a byte: `bytes` hands that fact on, as the replay's does.
pub fn parnusild_replay_32_96_66(
    bytes: &[u8],
    numbers: &mut [u32],
    place: &mut usize,
    counts: &mut [usize; COUNTS],
    tasks: &mut usize,
    links: &mut usize,
    control: &mut [u8; CONTROL],
    values: &mut [u32; VALUES],
    times: &mut [u32; TIMES],
) -> u8
    ensures answer { Replayed bytes.now numbers.old result place.new counts.new (state_of tasks.new links.new control.new values.new times.new) numbers.new }
    ensures bytes { Bytes bytes.now }
{
    let answer = recording::replay(bytes, numbers);
    *place = answer.place;
    *counts = [
        answer.arrivals,
        answer.starts,
        answer.reads,
        answer.finishes,
    ];
    put_state(answer.state, tasks, links, control, values, times);
    answer.refusal
}
