// One event given to a lent state.
ghost use Rattle.std.specs.Prelude.{◌≡◌, ◌≢◌};
ghost use Rattle.std.specs.Result.{result_unwrap_or};
ghost use Rattle.refusals.specs.Numbers.{told};
ghost use Rattle.protocol_state.specs.Give.{reply};
ghost use Rattle.mailbox_layout.specs.Layout.{state_of};
ghost use Rattle.mailbox_event.specs.declared.When.TheVariants.{Untimed, At};
ghost use Rattle.mailbox_call.specs.Calls.{requested, request_reply};

use mailbox_call::ask;
use mailbox_give::{give, give_at};
use mailbox_layout::{CONTROL, TIMES, VALUES};
use refusals::Refusal;

// An answer in two numbers, which is what C takes: the refusal, 0 for none, and the number of an accepted read, else 0.
fn answered(given: Result<u32, Refusal>, number: &mut u32) -> u8
    ensures { (result ≡ told given) × (number.new ≡ result_unwrap_or given 0) }
{
    match given {
        Ok(read) => {
            *number = read;
            0
        }
        Err(refusal) => {
            *number = 0;
            u8::from(refusal)
        }
    }
}

// One event given to a state under fixed priorities: 19 where the state isn't sound or has deadlines, then 11 for an unknown kind, then 12 to
// 16, else it is done. A refusal leaves the three arrays as they were lent.
pub fn parnusild_event_32_96_66(
    kind: u8,
    which: u32,
    value: u32,
    number: &mut u32,
    tasks: usize,
    links: usize,
    control: &mut [u8; CONTROL],
    values: &mut [u32; VALUES],
    times: &mut [u32; TIMES],
) -> u8
    ensures answer { reply (state_of tasks links control.new values.new times.new) result number.new ≡ request_reply Untimed (state_of tasks links control.old values.old times.old) (requested kind which value) }
    ensures kept { result ≢ 0 → (control.new ≡ control.old) × ((values.new ≡ values.old) × (times.new ≡ times.old)) }
{
    let asked = ask(kind, which, value);
    let given = give(asked, tasks, links, control, values, times);
    answered(given, number)
}

// One event given to a state with deadlines at a tick: 19 where the state isn't sound or is one under fixed priorities, then 11, 12, 22, 21, 13
// to 16 and 23 in this order, else it is done. No tick is ever made up: a state with deadlines takes no event without one.
pub fn parnusild_event_at_32_96_66(
    tick: u32,
    kind: u8,
    which: u32,
    value: u32,
    number: &mut u32,
    tasks: usize,
    links: usize,
    control: &mut [u8; CONTROL],
    values: &mut [u32; VALUES],
    times: &mut [u32; TIMES],
) -> u8
    ensures answer { reply (state_of tasks links control.new values.new times.new) result number.new ≡ request_reply (At tick) (state_of tasks links control.old values.old times.old) (requested kind which value) }
    ensures kept { result ≢ 0 → (control.new ≡ control.old) × ((values.new ≡ values.old) × (times.new ≡ times.old)) }
{
    let asked = ask(kind, which, value);
    let given = give_at(tick, asked, tasks, links, control, values, times);
    answered(given, number)
}
