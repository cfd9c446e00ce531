// The fields of a state, and whether two states have the same table, slots past the counts too.
use mailbox::State;
use mailbox_base::numbers::{CELLS, LINKS, TASKS};

// The fields of a state but for its counts.
#[derive(Clone, Copy, PartialEq, Eq)]
pub(crate) enum InState {
    Default,
    Phase,
    Newest,
    Previous,
    Seen,
    Cell,
    Writer,
    Reader,
    Kind,
    StartValue,
    Pointer,
    Mark,
    Deadline,
    Since,
    Last,
    Policy,
}

// Those that no event may change, besides the counts.
const OF_TABLE: [InState; 7] = [
    InState::Default,
    InState::Writer,
    InState::Reader,
    InState::Kind,
    InState::StartValue,
    InState::Deadline,
    InState::Policy,
];

impl InState {
    // Its entry `i` in a state, by its accessor.
    pub(crate) fn entry(self, s: &State, i: usize) -> u32 {
        match self {
            InState::Default => s.defaults(i),
            InState::Phase => u32::from(s.phase(i)),
            InState::Newest => u32::from(s.newest(i)),
            InState::Previous => u32::from(s.previous(i)),
            InState::Seen => u32::from(s.seen(i)),
            InState::Cell => s.cells(i),
            InState::Writer => u32::from(s.writer(i)),
            InState::Reader => u32::from(s.reader(i)),
            InState::Kind => u32::from(s.kind(i)),
            InState::StartValue => s.start_value(i),
            InState::Pointer => u32::from(s.pointer(i)),
            InState::Mark => u32::from(s.mark(i)),
            InState::Deadline => s.deadline(i),
            InState::Since => s.since(i),
            InState::Last => s.last(),
            InState::Policy => s.policy(),
        }
    }

    // How many entries it has.
    pub(crate) fn size(self) -> usize {
        match self {
            InState::Cell => CELLS,
            InState::Default
            | InState::Phase
            | InState::Newest
            | InState::Previous
            | InState::Seen
            | InState::Deadline
            | InState::Since => TASKS,
            InState::Last | InState::Policy => 1,
            InState::Writer
            | InState::Reader
            | InState::Kind
            | InState::StartValue
            | InState::Pointer
            | InState::Mark => LINKS,
        }
    }

    // Whether two states have the same in it.
    fn same(self, a: &State, b: &State) -> bool {
        (0..self.size()).all(|i| self.entry(a, i) == self.entry(b, i))
    }
}

// Whether two states have the same table: no event may change it.
pub(crate) fn same_table(a: &State, b: &State) -> bool {
    a.tasks == b.tasks && a.links == b.links && OF_TABLE.iter().all(|field| field.same(a, b))
}
