// One entry of a list, judged from the left: code missing, code unknown, rest missing, bad float.
#![tactic(auto)]

ghost use Rattle.std.specs.Prelude.{◌≡◌, true, false, ℕ, ◌+◌, MatchResult};
ghost use Rattle.std.specs.Float.{binary64};
ghost use Rattle.std.specs.Float.Ieee.{of_bits};
ghost use Rattle.settings_float.specs.AboveZero.{above_zero};
ghost use Rattle.settings_entry.specs.Found.{next_of, setting_judged, setting_taken};

use crate::code::code_at;
pub use code::Code;
use lent_bytes::number::number_at;
use lent_bytes::place::room;
use refusals::Refusal;
use settings_float::bits_above_zero;

mod code;

// The bytes of an entry: its code and eight more.
pub const ENTRY: usize = 9;

// A setting, with its own value.
#[derive(Clone, Copy, Debug, PartialEq)]
pub enum Setting {
    // millimetres
    Margin(f64),
    // millimetres per second
    Feed(f64),
    Count(u64),
}

// The float of eight bytes, where they are those of a finite number above zero. The bits of a bad float are never made a float.
#[tactic(auto, using(settings_float::proofs::Floats::no_nan_bits))]
fn float_of(bits: u64) -> Result<f64, Refusal>
    ensures { MatchResult result (λ x. (x ≡ of_bits binary64 bits) × (above_zero x ≡ true))
        (λ why. (why ≡ Refusal.BadFloat) × (above_zero (of_bits binary64 bits) ≡ false)) }
{
    if bits_above_zero(bits) {
        Ok(f64::from_bits(bits))
    } else {
        Err(Refusal::BadFloat)
    }
}

// The setting of a code and eight bytes: a margin and a feed rate only of a float above zero.
#[tactic(auto, unfolding(crate::specs::Found::setting_judged))]
fn setting_of(code: Code, bits: u64) -> Result<Setting, Refusal>
    ensures { (q : ℕ) → next_of result q ≡ setting_judged code bits q }
{
    match code {
        Code::Margin => Ok(Setting::Margin(float_of(bits)?)),
        Code::Feed => Ok(Setting::Feed(float_of(bits)?)),
        Code::Count => Ok(Setting::Count(bits)),
    }
}

// The entry at a place: its setting, or the refusal.
#[tactic(auto, using(crate::proofs::Entries::entry_steps))]
pub fn entry_at(s: &[u8], at: usize) -> Result<Setting, Refusal>
    ensures { next_of result (at + 9) ≡ setting_taken s.now at }
{
    let code = code_at(s, at)?;
    if room(s, at) < ENTRY {
        return Err(Refusal::Ends);
    }
    setting_of(code, number_at(s, at + 1, 8))
}
