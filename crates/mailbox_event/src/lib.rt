// An event, as it is given to the mailboxes and stands in a recording.
#![tactic(auto)]

ghost use Rattle.std.specs.Prelude.{◌≡◌, ◌%◌};
ghost use Rattle.mailbox_event.specs.Plain.{row, kind_said, policy_for};

use refusals::Refusal;

// The kinds of event, in the order of their numbers.
#[derive(Clone, Copy, Debug, PartialEq, Eq)]
pub enum Kind {
    Arrival,
    Start,
    Read,
    Finish,
}

// The kind of a number: any has one, by its remainder by four, as it has a row in the decision table.
impl From<usize> for Kind {
    ghost from_gives = { λ n kind. row kind ≡ n % 4 };

    fn from(n: usize) -> Kind {
        match n % 4 {
            0 => Kind::Arrival,
            1 => Kind::Start,
            2 => Kind::Read,
            _ => Kind::Finish,
        }
    }
}

// The kind that a number says, from 1 on.
impl TryFrom<u8> for Kind {
    type Error = Refusal;

    ghost try_from_gives = { λ number kind. kind ≡ kind_said number };

    fn try_from(number: u8) -> Result<Kind, Refusal> {
        match number {
            1 => Ok(Kind::Arrival),
            2 => Ok(Kind::Start),
            3 => Ok(Kind::Read),
            4 => Ok(Kind::Finish),
            _ => Err(Refusal::UnknownKind),
        }
    }
}

// The arrival of a set of tasks, the start of a task, a read by a link, the finish of a task with a value.
#[derive(Clone, Copy, Debug, PartialEq, Eq)]
pub enum Event {
    Arrival(u32),
    Start(u8),
    Read(u8),
    Finish(u8, u32),
}

// When an event is handed over: without a tick, to a state under fixed priorities, or at one, to a state with deadlines.
#[derive(Clone, Copy)]
pub enum When {
    Untimed,
    At(u32),
}

// The policy of the states that it is for: 0 fixed priorities, 1 earliest deadline first.
pub fn policy_for(when: When) -> u32
    ensures { result ≡ policy_for when }
{
    match when {
        When::Untimed => 0,
        When::At(_) => 1,
    }
}
