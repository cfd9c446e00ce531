// The mailboxes of a station: a state, and one event given to it. The first of the two entry points.
//
// A table of numbers makes a fresh state (`State::fresh`); each event is given to the state (`arrival`, `start`, `read`,
// `finish`), which hands back the next state and the answer. Nothing is asked of the caller: whatever the table, the event or
// the state holds, an answer comes back, and a refusal hands the state back as it was lent.
#![tactic(auto)]

ghost use Rattle.std.specs.Prelude.{◌≡◌, true, List, [], ℕ, min};
ghost use Rattle.std.specs.Result.{result_unwrap_or};
ghost use Rattle.refusals.specs.Numbers.{told};
ghost use Rattle.protocol.specs.Event.{arrival, start, read, finish};
ghost use Rattle.protocol_state.specs.Records.{first_tasks};
ghost use Rattle.protocol_state.specs.Saved.{at, state_room};
ghost use Rattle.protocol_state.specs.Fresh.{single};
ghost use Rattle.protocol_state.specs.Give.{plainly, ticked};
ghost use Rattle.mailbox_event.specs.Plain.{plain, call_of};
ghost use Rattle.mailbox_layout.specs.Layout.{cut_times};
ghost use Rattle.mailbox_layout.specs.Fresh.{fresh_times};
ghost use Rattle.mailbox.specs.States.{saved, IsWhole, made_of, made_from, Makes, Gives, passing, StaysSound};

use crate::tables::{put_links, then_dates, times_of, values_of};
use mailbox_base::numbers::{EVENTS, LINKS, TASKS};
use mailbox_event::{Event, When};
use mailbox_give::{give, give_at};
use mailbox_layout::fresh::{fresh_control, fresh_times};
use mailbox_layout::{CONTROL, InControl, InTimes, InValues, TIMES, VALUES, control_at, entry_at};
use mailbox_plan::plan_of;
use mailbox_rules::table::judge_table;
use mailbox_sound::is_sound;
use refusals::Refusal;

mod tables;

// All that a station has to keep between events: the counts, and the three arrays whose regions `mailbox_layout` names. Each field has an
// accessor below. Slots past `tasks` and past `links` are never touched; when fresh they hold 0, newest and previous 1.
#[derive(Clone, Copy, Debug, PartialEq, Eq)]
pub struct State {
    pub tasks: usize,
    pub links: usize,
    pub control: [u8; CONTROL],
    pub values: [u32; VALUES],
    pub times: [u32; TIMES],
}

// The refusal, 0 for none, and the value: the number of an accepted read, else 0.
// Numbers, since the demands and hosts in C speak of them.
#[derive(Clone, Copy, Debug, PartialEq, Eq)]
pub struct Answer {
    pub refusal: u8,
    pub value: u32,
}

impl From<Result<u32, Refusal>> for Answer {
    ghost from_gives = { λ given answer. (answer.refusal ≡ told given) × (answer.value ≡ result_unwrap_or given 0) };

    fn from(given: Result<u32, Refusal>) -> Answer {
        match given {
            Ok(value) => Answer { refusal: 0, value },
            Err(refusal) => Answer {
                refusal: u8::from(refusal),
                value: 0,
            },
        }
    }
}

// What an event hands back.
#[derive(Clone, Copy, Debug, PartialEq, Eq)]
pub struct Step {
    pub state: State,
    pub answer: Answer,
}

// What a table makes: the refusal that it earns, 0 for none, and a fresh state. Numbers, as in an answer.
#[derive(Clone, Copy, Debug, PartialEq, Eq)]
pub struct Made {
    pub refusal: u8,
    pub state: State,
}

impl State {
    // The largest counts of tasks, links and events.
    pub const TASKS: usize = TASKS;

    pub const LINKS: usize = LINKS;

    pub const EVENTS: usize = EVENTS;

    // The fresh state of a table under fixed priorities: so many tasks with these defaults, so many links with these writers, readers, kinds
    // and start values. Refusals: 2 and 3 the counts, 4 to 9 and 20 the first link at fault; the state is then that of a single task with
    // default 0. The columns of a table are arrays side by side, as hosts in C hand them over.
    pub fn fresh(
        tasks: usize,
        links: usize,
        defaults: [u32; TASKS],
        writer: [u8; LINKS],
        reader: [u8; LINKS],
        kind: [u8; LINKS],
        start_value: [u32; LINKS],
    ) -> Made
        ensures answer { Makes 0 tasks links defaults [] writer reader kind start_value result }
        ensures sound { passing result.state ≡ true }
    {
        State::of_table(
            tasks,
            links,
            &defaults,
            &writer,
            &reader,
            &kind,
            &start_value,
            fresh_times(0),
        )
    }

    // The fresh state of a table under earliest deadline first: its tasks have these relative deadlines besides. A further refusal, after 2 and
    // before 3: 24 a relative deadline of 0. The state is then that of a single task under fixed priorities, as for every refusal.
    pub fn fresh_dated(
        tasks: usize,
        links: usize,
        defaults: [u32; TASKS],
        deadlines: [u16; TASKS],
        writer: [u8; LINKS],
        reader: [u8; LINKS],
        kind: [u8; LINKS],
        start_value: [u32; LINKS],
    ) -> Made
        ensures answer { Makes 1 tasks links defaults deadlines writer reader kind start_value result }
        ensures sound { passing result.state ≡ true }
    {
        State::of_table(
            tasks,
            links,
            &defaults,
            &writer,
            &reader,
            &kind,
            &start_value,
            times_of(tasks, &deadlines),
        )
    }

    // The fresh state of a table, under the policy and with the relative deadlines that these times have.
    fn of_table(
        tasks: usize,
        links: usize,
        defaults: &[u32; TASKS],
        writer: &[u8; LINKS],
        reader: &[u8; LINKS],
        kind: &[u8; LINKS],
        start_value: &[u32; LINKS],
        times: [u32; TIMES],
    ) -> Made
        ensures { (p : ℕ) (X : List ℕ) → cut_times times ≡ fresh_times p (first_tasks (min tasks state_room.tasks) defaults.now X) → Makes p tasks links defaults.now X writer.now reader.now kind.now start_value.now result }
    {
        let mut control = fresh_control();
        let mut values = values_of(tasks, defaults);
        put_links(
            links,
            writer,
            reader,
            kind,
            start_value,
            &mut control,
            &mut values,
        );
        State {
            tasks,
            links,
            control,
            values,
            times,
        }
        .judged()
    }

    // What the table of a state that nothing has happened in makes: the state, or the refusal that it earns.
    fn judged(self) -> Made
        ensures answer { made_of result ≡ made_from (saved self) }
        ensures whole { IsWhole result.state }
    {
        let plan = plan_of(self.links, &self.control, &self.times);
        // what is counted is not asked for here
        let mut counts = [0u8; TASKS];
        let table = judge_table(
            &mut counts,
            &plan,
            self.tasks,
            self.links,
            &self.control,
            &self.values,
        );
        match then_dates(table, self.tasks, &self.times) {
            Ok(()) => Made {
                refusal: 0,
                state: self.itself(),
            },
            Err(refusal) => Made {
                refusal: u8::from(refusal),
                state: State::single(),
            },
        }
    }

    // The arrival of a set of tasks, bit t for task t. This call and the three below are the four kinds of `event` by name, as hosts have them;
    // those at a tick are the four of `event_at`.
    // Refusals: 19; 12 an empty set or a task not in the table; 13 an active task.
    pub fn arrival(self, set: u32) -> Step
        ensures answer { Gives self (plainly (arrival set)) result }
        ensures sound { StaysSound self result }
    {
        self.event(Event::Arrival(set))
    }

    // The start of a task.
    // Refusals: 19; 12 no such task; 14 it isn't waiting; 16 a more urgent task is active.
    pub fn start(self, t: u8) -> Step
        ensures answer { Gives self (plainly (start t)) result }
        ensures sound { StaysSound self result }
    {
        self.event(Event::Start(t))
    }

    // The number that a link's reader reads by it.
    // Refusals: 19; 12 no such link; 15 its reader isn't running; 16 a more urgent task is active.
    pub fn read(self, l: u8) -> Step
        ensures answer { Gives self (plainly (read l)) result }
        ensures sound { StaysSound self result }
    {
        self.event(Event::Read(l))
    }

    // The finish of a task with a value.
    // Refusals: 19; 12 no such task; 15 it isn't running; 16 a more urgent task is active.
    pub fn finish(self, t: u8, value: u32) -> Step
        ensures answer { Gives self (plainly (finish t value)) result }
        ensures sound { StaysSound self result }
    {
        self.event(Event::Finish(t, value))
    }

    // Any event, already read, for a state under fixed priorities: 19 if the state isn't sound or has deadlines, else 12 to 16 in rising
    // order, else it is done.
    pub fn event(self, e: Event) -> Step
        ensures answer { Gives self (plainly (plain e)) result }
        ensures sound { StaysSound self result }
    {
        self.handed(When::Untimed, e)
    }

    // The arrival of a set of tasks at a tick, for a state with deadlines, as the calls below. Refusals, of each of them: 19; 12; 22 a tick
    // above 4,000,000,000; 21 a tick below the last one; then those of the call without a tick, 16 by the order of jobs.
    pub fn arrival_at(self, tick: u32, set: u32) -> Step
        ensures answer { Gives self (ticked tick (arrival set)) result }
        ensures sound { StaysSound self result }
    {
        self.event_at(tick, Event::Arrival(set))
    }

    // The start of a task at a tick.
    pub fn start_at(self, tick: u32, t: u8) -> Step
        ensures answer { Gives self (ticked tick (start t)) result }
        ensures sound { StaysSound self result }
    {
        self.event_at(tick, Event::Start(t))
    }

    // The number that a link's reader reads by it at a tick.
    pub fn read_at(self, tick: u32, l: u8) -> Step
        ensures answer { Gives self (ticked tick (read l)) result }
        ensures sound { StaysSound self result }
    {
        self.event_at(tick, Event::Read(l))
    }

    // The finish of a task with a value at a tick. A further refusal, the last: 23 after its deadline, its arrival tick and its relative deadline.
    pub fn finish_at(self, tick: u32, t: u8, value: u32) -> Step
        ensures answer { Gives self (ticked tick (finish t value)) result }
        ensures sound { StaysSound self result }
    {
        self.event_at(tick, Event::Finish(t, value))
    }

    // Any event, already read, at a tick, for a state with deadlines: 19 if the state isn't sound or is one under fixed priorities, else 12,
    // 22, 21, 13 to 16 and 23 in this order, else it is done.
    pub fn event_at(self, tick: u32, e: Event) -> Step
        ensures answer { Gives self (ticked tick (plain e)) result }
        ensures sound { StaysSound self result }
    {
        self.handed(When::At(tick), e)
    }

    // An event handed over without a tick or at one.
    fn handed(mut self, when: When, e: Event) -> Step
        ensures answer { Gives self (call_of when e) result }
        ensures sound { StaysSound self result }
    {
        let given = match when {
            When::Untimed => give(
                Ok(e),
                self.tasks,
                self.links,
                &mut self.control,
                &mut self.values,
                &self.times,
            ),
            When::At(tick) => give_at(
                tick,
                Ok(e),
                self.tasks,
                self.links,
                &mut self.control,
                &mut self.values,
                &mut self.times,
            ),
        };
        let state = self.itself();
        Step {
            state,
            answer: Answer::from(given),
        }
    }

    // The same state. That its arrays have their lengths is part of its type, but an array that was lent is in a contract a list of any length:
    // `whole` hands the fact on.
    pub fn itself(self) -> State
        ensures same { result ≡ self }
        ensures whole { IsWhole result }
    {
        self
    }

    // Whether the state is sound: 19 is answered exactly when it isn't, or when it is of the other policy.
    pub fn sound(self) -> bool
        ensures { result ≡ passing self }
    {
        let plan = plan_of(self.links, &self.control, &self.times);
        is_sound(
            &plan,
            self.tasks,
            self.links,
            &self.control,
            &self.values,
            &self.times,
        )
    }

    // The fresh state of a single task with default 0 and no links, under fixed priorities.
    pub fn single() -> State
        ensures { (saved result ≡ single state_room) × IsWhole result }
    {
        State {
            tasks: 1,
            links: 0,
            control: fresh_control(),
            values: [0u32; VALUES],
            times: [0u32; TIMES],
        }
    }

    // The default of task `t`; 0, here and below, for what lies past the room of the state.
    pub fn defaults(self, t: usize) -> u32
        ensures { result ≡ at (saved self).defaults t }
    {
        entry_at(&self.values, InValues::Default, t)
    }

    // The phase of task `t`: 0 idle, 1 waiting, 2 running.
    pub fn phase(self, t: usize) -> u8
        ensures { result ≡ at (saved self).phase t }
    {
        control_at(&self.control, InControl::Phase, t)
    }

    // The newest position of task `t`, 1 to N + 2, where N is how many links the task has to readers behind.
    pub fn newest(self, t: usize) -> u8
        ensures { result ≡ at (saved self).newest t }
    {
        control_at(&self.control, InControl::Newest, t)
    }

    // Its previous position.
    pub fn previous(self, t: usize) -> u8
        ensures { result ≡ at (saved self).previous t }
    {
        control_at(&self.control, InControl::Previous, t)
    }

    // Whether it has had no, one or more arrivals: 0, 1, 2.
    pub fn seen(self, t: usize) -> u8
        ensures { result ≡ at (saved self).seen t }
    {
        control_at(&self.control, InControl::Seen, t)
    }

    // The number at place `i` of the positions: position p of task t at t * 10 + p - 1.
    pub fn cells(self, i: usize) -> u32
        ensures { result ≡ at (saved self).cells i }
    {
        entry_at(&self.values, InValues::Cell, i)
    }

    // The writer of link `l`.
    pub fn writer(self, l: usize) -> u8
        ensures { result ≡ at (saved self).writer l }
    {
        control_at(&self.control, InControl::Writer, l)
    }

    // Its reader.
    pub fn reader(self, l: usize) -> u8
        ensures { result ≡ at (saved self).reader l }
    {
        control_at(&self.control, InControl::Reader, l)
    }

    // Its kind: 0 direct, 1 delayed.
    pub fn kind(self, l: usize) -> u8
        ensures { result ≡ at (saved self).kind l }
    {
        control_at(&self.control, InControl::Kind, l)
    }

    // Its start value, which it reads while it is marked; 0 of a direct link in a sound state.
    pub fn start_value(self, l: usize) -> u32
        ensures { result ≡ at (saved self).start_value l }
    {
        entry_at(&self.values, InValues::StartValue, l)
    }

    // Its pointer, a position of its writer; 0: absent.
    pub fn pointer(self, l: usize) -> u8
        ensures { result ≡ at (saved self).pointer l }
    {
        control_at(&self.control, InControl::Pointer, l)
    }

    // Its mark: 1 where its pointer is there and the last arrival of its reader settled on its start value, else 0.
    pub fn mark(self, l: usize) -> u8
        ensures { result ≡ at (saved self).mark l }
    {
        control_at(&self.control, InControl::Mark, l)
    }

    // The relative deadline of task `t`; 0 under fixed priorities.
    pub fn deadline(self, t: usize) -> u32
        ensures { result ≡ at (saved self).deadline t }
    {
        entry_at(&self.times, InTimes::Deadline, t)
    }

    // The tick at which its active job arrived; 0 where it is idle.
    pub fn since(self, t: usize) -> u32
        ensures { result ≡ at (saved self).since t }
    {
        entry_at(&self.times, InTimes::Since, t)
    }

    // The tick of the last accepted event, 0 before the first.
    pub fn last(self) -> u32
        ensures { result ≡ (saved self).last }
    {
        entry_at(&self.times, InTimes::Last, 0)
    }

    // The policy: 0 fixed priorities, 1 earliest deadline first.
    pub fn policy(self) -> u32
        ensures { result ≡ (saved self).policy }
    {
        entry_at(&self.times, InTimes::Policy, 0)
    }
}
