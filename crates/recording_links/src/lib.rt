// The section of a recording's links, from lent bytes into the lent control and values of a fresh state: nothing of them is copied.
#![tactic(auto)]

ghost use Rattle.std.specs.Prelude.{List, ◌≤◌};
ghost use Rattle.protocol_state.specs.Records.{Task};
ghost use Rattle.protocol_state.specs.Saved.{state_room};
ghost use Rattle.mailbox_layout.specs.Layout.{ahead_among};
ghost use Rattle.recording_links.specs.Links.{links_played, links_at, NoLinks, HoldsLinks};

use lent_bytes::place::room;
use lent_fields::{u8_at, u32_at};
use mailbox_base::numbers::LINKS;
use mailbox_layout::fresh::put_link;
use mailbox_layout::{CONTROL, Link, TIMES, VALUES};
use mailbox_plan::{is_ahead, put_flag};
use mailbox_rules::table::fault_after;
use recording_format::{LINK_SIZE, WhichKind};
use recording_head::{Section, Stopped, link_count, placed_after};
use refusals::Refusal;

// The next `n` link records from a place on, up to the first at fault, in a table of so many tasks with these times, which say who is ahead
// of whom: the links into the control, and their start values into the values.
#[tactic(auto, using(crate::proofs::LinkLoop::links_first, crate::proofs::LinkLoop::links_on, crate::proofs::LinkLoop::links_end))]
fn link_records(
    s: &[u8],
    at: usize,
    tasks: usize,
    n: usize,
    times: &[u32; TIMES],
    control: &mut [u8; CONTROL],
    values: &mut [u32; VALUES],
) -> Result<Section, Stopped>
    requires { n ≤ state_room.links }
    ensures { (ts : List Task) → NoLinks ts control.old values.old → HoldsLinks ts (links_played (ahead_among times.now) tasks n s.now at) result control.new values.new }
{
    let mut plan = [0u8; LINKS];
    let mut place = at;
    for l in 0..n {
        if room(s, place) < LINK_SIZE {
            return Err(Stopped {
                refused: Refusal::Ends.at(place),
                count: l,
            });
        }
        let writer = u8_at(s, place, 0);
        let reader = u8_at(s, place, 1);
        let link = Link {
            writer,
            reader,
            kind: u8_at(s, place, 2),
            start_value: u32_at(s, place, 3),
        };
        let fault = fault_after(&plan, tasks, control, times, l, link);
        placed_after(fault, place, l)?;
        put_link(control, values, l, link);
        let behind = is_ahead(times, writer as usize, reader as usize);
        put_flag(&mut plan, l, behind);
        place += LINK_SIZE;
    }
    Ok(Section { place, count: n })
}

// The section of the links at a place, in a table of so many tasks with these times, into a control and values that hold no link yet.
#[tactic(auto, using(crate::proofs::LinkLoop::links_lost))]
pub fn read_links(
    s: &[u8],
    which: WhichKind,
    at: usize,
    tasks: usize,
    times: &[u32; TIMES],
    control: &mut [u8; CONTROL],
    values: &mut [u32; VALUES],
) -> Result<Section, Stopped>
    ensures { (ts : List Task) → NoLinks ts control.old values.old → HoldsLinks ts (links_at which (ahead_among times.now) tasks s.now at) result control.new values.new }
{
    let links = placed_after(link_count(s, which, at), at, 0)?;
    link_records(s, links.after, tasks, links.count, times, control, values)
}
