// The decision table.
ghost use Rattle.std.specs.Prelude.{◌≡◌};
ghost use Rattle.protocol_state.specs.Decision.{decided};
ghost use Rattle.mailbox_event.specs.Plain.{row};
ghost use Rattle.mailbox_base.specs.Decides.{Decides};

use mailbox_event::Kind;
use refusals::Refusal;

// The phases of a task.
pub const IDLE: u8 = 0;

pub const WAITING: u8 = 1;

pub const RUNNING: u8 = 2;

// The table: what each kind of event (arrival, start, read, finish) does in each phase (idle, waiting, running), the next phase or the refusal.
const DECISIONS: [[Result<u8, Refusal>; 3]; 4] = [
    [
        Ok(WAITING),
        Err(Refusal::StillActive),
        Err(Refusal::StillActive),
    ],
    [
        Err(Refusal::NotWaiting),
        Ok(RUNNING),
        Err(Refusal::NotWaiting),
    ],
    [
        Err(Refusal::NotRunning),
        Err(Refusal::NotRunning),
        Ok(RUNNING),
    ],
    [Err(Refusal::NotRunning), Err(Refusal::NotRunning), Ok(IDLE)],
];

// The entry for an event of a kind in a phase; what is no phase has the last column. Each caller names a kind, so that with the call in line all
// three entries are constants, and no table is read while events run.
pub fn decide(kind: Kind, phase: u8) -> Result<u8, Refusal>
    ensures { Decides (decided (row kind) phase) result }
{
    let [idle, waiting, running] = match kind {
        Kind::Arrival => DECISIONS[0],
        Kind::Start => DECISIONS[1],
        Kind::Read => DECISIONS[2],
        Kind::Finish => DECISIONS[3],
    };
    match phase {
        IDLE => idle,
        WAITING => waiting,
        _ => running,
    }
}

// The entry of the table: the next phase, or the number of the refusal.
pub fn entry(kind: Kind, phase: u8) -> u8
    ensures { result ≡ decided (row kind) phase }
{
    decide(kind, phase).unwrap_or_else(u8::from)
}
