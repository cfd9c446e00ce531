// Settings written back: judged whole before the first byte is written. The slots and how many of them count are two parameters throughout, as
// in `write_back`, whose clauses and the demands speak of both.
ghost use Rattle.std.specs.Prelude.{◌≡◌, ◌++◌, ◌+◌, ◌*◌, ◌≤◌, ◌<◌, length, drop, MatchOption, OnOk};
ghost use Rattle.settings.specs.Writing.{first_bad, AllGood, HeldSlots, list_of, written, written_of, back_buffer};

use crate::Written;
use lent_bytes::number::put_number;
use refusals::{Refusal, Refused};
use settings_entry::ENTRY;
use settings_list::{SETTINGS, Slot};
use settings_put::{is_good, put_entry};

// The first of so many settings that is a bad float, if one is.
fn first_bad(settings: &[Slot; SETTINGS], n: usize) -> Option<usize>
    requires { n ≤ 64 }
    ensures { MatchOption result ((n ≡ first_bad settings.now n) × (AllGood settings.now n × HeldSlots settings.now n))
        (λ i. (i ≡ first_bad settings.now n) × (i < n)) }
{
    for (i, slot) in settings[..n].iter().enumerate() {
        if !is_good(slot.setting) {
            return Some(i);
        }
    }
    None
}

// How long the list of so many settings is, where it may be written into so much room: else 2 for a wrong number, then 26 for a bad float, then
// 18 for too little room.
#[tactic(auto, using(crate::proofs::WriteAnswers::judge_steps))]
fn judge(settings: &[Slot; SETTINGS], number: usize, room: usize) -> Result<usize, Refused>
    ensures answer { written_of result ≡ written settings.now number room }
    ensures ready { OnOk result ((number ≤ 64) × ((1 + 9 * number ≤ room) × (AllGood settings.now number × HeldSlots settings.now number))) }
{
    if number == 0 || number > SETTINGS {
        return Err(Refusal::WrongCount.at(0));
    }
    if let Some(bad) = first_bad(settings, number) {
        return Err(Refusal::BadFloat.at(1 + ENTRY * bad));
    }
    let size = 1 + ENTRY * number;
    if room < size {
        return Err(Refusal::NoRoom.at(size));
    }
    Ok(size)
}

// Puts the count and so many entries, all of which may stand in a list.
fn put_list(settings: &[Slot; SETTINGS], n: usize, out: &mut [u8])
    requires { (n ≤ 64) × ((1 + 9 * n ≤ length out.old) × AllGood settings.now n) }
    ensures { out.new ≡ list_of settings.now n ++ drop (1 + 9 * n) out.old }
{
    put_number(n as u64, 1, out, 0);
    for (i, slot) in settings[..n].iter().enumerate() {
        put_entry(slot.setting, out, 1 + ENTRY * i);
    }
}

// Writes so many settings, unless they are refused.
#[tactic(auto, using(refusals::proofs::Numbers::number_not_0), unfolding(crate::specs::Writing::back_buffer))]
pub fn write_list(settings: [Slot; SETTINGS], number: usize, out: &mut [u8]) -> Written
    ensures answer { result ≡ written settings number (length out.old) }
    ensures buffer { out.new ≡ back_buffer settings number out.old }
    ensures held { result.refusal ≡ 0 → HeldSlots settings number }
{
    match judge(&settings, number, out.len()) {
        Ok(size) => {
            put_list(&settings, number, out);
            Written {
                refusal: 0,
                place: size,
            }
        }
        Err(why) => Written {
            refusal: u8::from(why.refusal),
            place: why.place,
        },
    }
}
