// The state of the mailboxes in three lent arrays, each cut into regions: bytes (control: phases, positions, arrivals, pointers, marks,
// links) and numbers of 32 bits (values: defaults, start values, mailboxes; times: deadlines, ticks, the policy). Every access to them goes
// through these functions; what is above speaks of the fields of a state.
// A field more is one region here and in specs/Layout, one field of the view there, and one accessor of the state.
#![tactic(auto)]

ghost use Rattle.std.specs.Prelude.{◌≡◌, List, ℕ, ◌≤◌, set};
ghost use Rattle.protocol_state.specs.Saved.{at, cell_of};
ghost use Rattle.regions.specs.Regions.{regions, region, start, width};
ghost use Rattle.mailbox_layout.specs.FieldNumbers.{control_region, value_region, time_region};
ghost use Rattle.mailbox_layout.specs.Layout.{control_widths, value_widths, time_widths, cell_region, cut, cut_values, cut_times, phase_in, cells_in};

use mailbox_base::numbers::{CELLS, LINKS, TASKS, cell_of};

pub mod fresh;
pub mod numbered;

// The fields of the control, a region each: by task,
#[derive(Clone, Copy, Debug, PartialEq, Eq)]
pub enum InControl {
    Phase,
    Newest,
    Previous,
    Seen,
    // then by link.
    Pointer,
    Mark,
    Writer,
    Reader,
    Kind,
}

// How many are by task and by link.
const BY_TASK: usize = 4;

const BY_LINK: usize = 5;

// The bytes of a state's control.
pub const CONTROL: usize = BY_TASK * TASKS + BY_LINK * LINKS;

// The fields of the values: by task, by link, then the positions of all tasks.
#[derive(Clone, Copy, Debug, PartialEq, Eq)]
pub enum InValues {
    Default,
    StartValue,
    Cell,
}

// The positions begin after the defaults and the start values.
const CELLS_FROM: usize = TASKS + LINKS;

// The numbers of a state's values.
pub const VALUES: usize = CELLS_FROM + CELLS;

// A link of a table, by value.
#[derive(Clone, Copy)]
pub struct Link {
    pub writer: u8,
    pub reader: u8,
    pub kind: u8,
    pub start_value: u32,
}

// The fields of the times: by task, then the last tick and the policy, a number each.
#[derive(Clone, Copy, Debug, PartialEq, Eq)]
pub enum InTimes {
    Deadline,
    Since,
    Last,
    Policy,
}

// The numbers of a state's times.
pub const TIMES: usize = 2 * TASKS + 2;

// A field of an array, which is one of the regions that the array is cut into.
pub trait Field: Copy {
    // how wide the regions are, and which of them it is
    ghost widths: { List ℕ };

    ghost number: { Self → ℕ };

    // Where it begins,
    fn start(self) -> usize
        ensures begins { result ≡ start widths (number self) }
        ensures small { result ≤ 65535 };

    // and how many entries it has.
    fn width(self) -> usize
        ensures wide { result ≡ width widths (number self) }
        ensures small { result ≤ 65535 };
}

impl Field for InControl {
    ghost widths = { control_widths };

    ghost number = { control_region };

    #[tactic(auto, unfolding(regions::specs::Regions::start))]
    fn start(self) -> usize {
        match self {
            InControl::Phase => 0,
            InControl::Newest => TASKS,
            InControl::Previous => 2 * TASKS,
            InControl::Seen => 3 * TASKS,
            InControl::Pointer => BY_TASK * TASKS,
            InControl::Mark => BY_TASK * TASKS + LINKS,
            InControl::Writer => BY_TASK * TASKS + 2 * LINKS,
            InControl::Reader => BY_TASK * TASKS + 3 * LINKS,
            InControl::Kind => BY_TASK * TASKS + 4 * LINKS,
        }
    }

    fn width(self) -> usize {
        match self {
            InControl::Phase | InControl::Newest | InControl::Previous | InControl::Seen => TASKS,
            _ => LINKS,
        }
    }
}

impl Field for InValues {
    ghost widths = { value_widths };

    ghost number = { value_region };

    #[tactic(auto, unfolding(regions::specs::Regions::start))]
    fn start(self) -> usize {
        match self {
            InValues::Default => 0,
            InValues::StartValue => TASKS,
            InValues::Cell => CELLS_FROM,
        }
    }

    fn width(self) -> usize {
        match self {
            InValues::Default => TASKS,
            InValues::StartValue => LINKS,
            InValues::Cell => CELLS,
        }
    }
}

impl Field for InTimes {
    ghost widths = { time_widths };

    ghost number = { time_region };

    #[tactic(auto, unfolding(regions::specs::Regions::start))]
    fn start(self) -> usize {
        match self {
            InTimes::Deadline => 0,
            InTimes::Since => TASKS,
            InTimes::Last => 2 * TASKS,
            InTimes::Policy => 2 * TASKS + 1,
        }
    }

    fn width(self) -> usize {
        match self {
            InTimes::Deadline | InTimes::Since => TASKS,
            InTimes::Last | InTimes::Policy => 1,
        }
    }
}

// What stands at place `i` of a field of the control, by task or by link; 0 where there is no such place. Here and below anything may be asked for
// that is a field: by its name, or by any number (`numbered`), one past the last too.
#[tactic(auto, using(regions::proofs::Regions::region_at, regions::proofs::Regions::region_past))]
pub fn control_at<F: Field>(control: &[u8], field: F, i: usize) -> u8
    ensures { result ≡ at (region (regions F.widths control.now) (F.number field)) i }
{
    if i < field.width() {
        control.get(field.start() + i).copied().unwrap_or(0)
    } else {
        0
    }
}

// Puts a byte there, where there is such a place: no other place of any field changes.
#[tactic(auto, using(regions::proofs::Regions::regions_put, regions::proofs::Regions::regions_put_past, regions::proofs::Regions::regions_put_out))]
pub fn put_control<F: Field>(control: &mut [u8], field: F, i: usize, x: u8)
    ensures { regions F.widths control.new ≡ set (regions F.widths control.old) (F.number field) (set (region (regions F.widths control.old) (F.number field)) i x) }
{
    if i < field.width() {
        let p = field.start() + i;
        if p < control.len() {
            control[p] = x;
        }
    }
}

// What stands at place `i` of a field of the values or of the times; 0 where there is no such place.
#[tactic(auto, using(regions::proofs::Regions::region_at, regions::proofs::Regions::region_past))]
pub fn entry_at<F: Field>(numbers: &[u32], field: F, i: usize) -> u32
    ensures { result ≡ at (region (regions F.widths numbers.now) (F.number field)) i }
{
    if i < field.width() {
        numbers.get(field.start() + i).copied().unwrap_or(0)
    } else {
        0
    }
}

// Puts a number there, where there is such a place.
#[tactic(auto, using(regions::proofs::Regions::regions_put, regions::proofs::Regions::regions_put_past, regions::proofs::Regions::regions_put_out))]
pub fn put_entry<F: Field>(numbers: &mut [u32], field: F, i: usize, x: u32)
    ensures { regions F.widths numbers.new ≡ set (regions F.widths numbers.old) (F.number field) (set (region (regions F.widths numbers.old) (F.number field)) i x) }
{
    if i < field.width() {
        let p = field.start() + i;
        if p < numbers.len() {
            numbers[p] = x;
        }
    }
}

// The phases of all tasks, lent: a loop over them asks for no place.
pub fn phases_in(control: &[u8; CONTROL]) -> &[u8]
    ensures { result.now ≡ phase_in control.now }
{
    let all: &[u8] = control;
    &all[0..TASKS]
}

// The numbers at the positions of all tasks, one task after the other, lent.
pub fn cells_in(values: &[u32; VALUES]) -> &[u32]
    ensures { result.now ≡ cells_in values.now }
{
    let all: &[u32] = values;
    &all[CELLS_FROM..VALUES]
}

// The number at position `p` of task `t`, 0 for what is none.
pub fn cell_at(values: &[u32; VALUES], t: u8, p: u8) -> u32
    ensures { result ≡ at (cells_in values.now) (cell_of t p) }
{
    entry_at(values, InValues::Cell, cell_of(t, p))
}

// Puts a number at position `p` of task `t`, where there is such a position.
pub fn put_cell(values: &mut [u32; VALUES], t: u8, p: u8, x: u32)
    ensures { cut_values values.new ≡ set (cut_values values.old) cell_region (set (cells_in values.old) (cell_of t p) x) }
{
    put_entry(values, InValues::Cell, cell_of(t, p), x);
}
