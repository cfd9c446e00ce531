// Limits, and numbers.
ghost use Rattle.std.specs.Prelude.{◌≡◌, cond, set};
ghost use Rattle.protocol.specs.Event.{has};
ghost use Rattle.protocol_state.specs.Saved.{cell_of};

// A state has room for so many tasks and links; a recording has at most so many events.
pub const TASKS: usize = 32;

pub const LINKS: usize = 96;

pub const EVENTS: usize = 10000;

// The largest tick.
pub const MOST_TICK: u32 = 4000000000;

// A task has at most eight links to readers behind, and two positions more.
pub const POSITIONS: usize = 10;

// The positions of all tasks, one task after the other.
pub const CELLS: usize = TASKS * POSITIONS;

// The bits of a set.
const BITS: usize = 32;

// How many tasks and links a table has.
#[derive(Clone, Copy)]
pub struct Size {
    pub tasks: usize,
    pub links: usize,
}

// `x` or `y`: both are at hand, so that the choice needs no branch.
pub fn pick(b: bool, x: u8, y: u8) -> u8
    ensures { result ≡ cond b x y }
{
    if b { x } else { y }
}

// Stores at `i`, where that is within.
pub fn put_number(a: &mut [u32], i: usize, x: u32)
    ensures { a.new ≡ set a.old i x }
{
    if i < a.len() {
        a[i] = x;
    }
}

// Where position `p` of task `t` stands among the cells.
pub fn cell_of(t: u8, p: u8) -> usize
    ensures { result ≡ cell_of t p }
{
    usize::from(t) * POSITIONS + usize::from(p.saturating_sub(1))
}

// Whether task `t` is in the set: bit `t`, where there is such a bit.
pub fn has(set: u32, t: usize) -> bool
    ensures { result ≡ has set t }
{
    t < BITS && (set >> t) % 2 == 1
}
