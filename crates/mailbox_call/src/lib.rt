// An event as a host hands it over: a kind, which task or link, and a value. A tick does not change what is asked.
#![tactic(auto)]

ghost use Rattle.std.specs.Prelude.{◌≡◌, MatchResult, ◌<◌};
ghost use Rattle.protocol_state.specs.Saved.{Saved};
ghost use Rattle.refusals.specs.declared.Refusal.TheVariants.{Outside};
ghost use Rattle.mailbox_event.specs.declared.When.{When};
ghost use Rattle.mailbox_call.specs.Calls.{requested, request_reply};
ghost use Rattle.mailbox_call.specs.Replies.{heard};

use mailbox_event::Event;
use refusals::Refusal;

// The number of a task or a link: one that fits no byte is in no table.
fn named(which: u32) -> Result<u8, Refusal>
    ensures { MatchResult result (λ named. named ≡ which) (λ why. (why ≡ Outside) × (255 < which)) }
{
    u8::try_from(which).map_err(|_| Refusal::Outside)
}

// What is asked: 1 arrival of a set, 2 start of a task, 3 read by a link, 4 finish of a task with a value, any other kind unknown.
pub fn ask(kind: u8, which: u32, value: u32) -> Result<Event, Refusal>
    ensures { (w : When) (q : Saved) → heard w q result ≡ request_reply w q (requested kind which value) }
{
    match kind {
        1 => Ok(Event::Arrival(which)),
        2 => Ok(Event::Start(named(which)?)),
        3 => Ok(Event::Read(named(which)?)),
        4 => Ok(Event::Finish(named(which)?, value)),
        _ => Err(Refusal::UnknownKind),
    }
}
