// A whole list, read: its count, its entries, and its end.
#![tactic(auto)]

ghost use Rattle.std.specs.Prelude.{◌≡◌, []};
ghost use Rattle.byte_format.specs.Section.{count_at};
ghost use Rattle.refusals.specs.Numbers.{number};
ghost use Rattle.settings_list.specs.Counted.{counted_of, answered};
ghost use Rattle.settings_list.specs.Migration.{count_limit, slots, refused_at, migration};

use refusals::{Refusal, Refused};
use settings_entry::{ENTRY, Setting, entry_at};

// The most settings that a list has.
pub const SETTINGS: usize = 64;

// A place for a setting in an array.
#[derive(Clone, Copy, Debug, PartialEq)]
pub struct Slot {
    pub setting: Setting,
}

// What a list is read as: the refusal, 0 for none, its place, and the settings, of which so many are there. Past them stand counts of 0;
// after a refusal none is there. Numbers, since the demands speak of them; an array with its number beside, since no heap is used.
#[derive(Clone, Copy)]
pub struct Migration {
    pub refusal: u8,
    pub place: usize,
    pub number: usize,
    pub settings: [Slot; SETTINGS],
}

// The count at the start: how many entries there are, or that it is missing, 0 or above 64.
#[tactic(auto, using(crate::proofs::Counting::count_steps))]
fn count(s: &[u8]) -> Result<usize, Refusal>
    ensures { counted_of result ≡ count_at 1 count_limit s.now 0 }
{
    let n = usize::from(*s.first().ok_or(Refusal::Ends)?);
    match n {
        1..=SETTINGS => Ok(n),
        _ => Err(Refusal::WrongCount),
    }
}

// Slots with no settings in them: counts of 0.
#[tactic(auto, unfolding(crate::specs::Migration::slots))]
fn no_settings() -> [Slot; SETTINGS]
    ensures { result ≡ slots [] }
{
    let none = Slot {
        setting: Setting::Count(0),
    };
    [none; SETTINGS]
}

// The answer to a list that is refused: there is no setting in it.
fn refused(why: Refused) -> Migration
    ensures { result ≡ refused_at (number why.refusal) why.place }
{
    let settings = no_settings();
    Migration {
        refusal: u8::from(why.refusal),
        place: why.place,
        number: 0,
        settings,
    }
}

// The answer to a list that is not: so many entries after the count, and then the end of the bytes.
fn accepted(s: &[u8]) -> Result<Migration, Refused>
    ensures { answered result ≡ migration s.now }
{
    let number = count(s).map_err(|why| why.at(0))?;
    let mut settings = no_settings();
    for (i, slot) in settings[..number].iter_mut().enumerate() {
        let at = 1 + ENTRY * i;
        slot.setting = entry_at(s, at).map_err(|why| why.at(at))?;
    }
    let end = 1 + ENTRY * number;
    if end < s.len() {
        return Err(Refusal::BytesLeft.at(end));
    }
    Ok(Migration {
        refusal: 0,
        place: end,
        number,
        settings,
    })
}

// The whole list.
pub fn read_list(s: &[u8]) -> Migration
    ensures { result ≡ migration s.now }
{
    accepted(s).unwrap_or_else(refused)
}
