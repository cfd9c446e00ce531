// One setting put into a list: whether it may stand there, and its entry.
#![tactic(auto)]

ghost use Rattle.std.specs.Prelude.{◌≡◌, ◌∷◌, ◌+◌, ◌≤◌, eqb, length};
ghost use Rattle.byte_format.specs.Number.{bytes_of};
ghost use Rattle.lent_bytes.specs.Put.{put_at};
ghost use Rattle.settings_entry.specs.Setting.{float_fault, Held};
ghost use Rattle.settings_entry.specs.Entry.{encode_entry, entry_of};
ghost use Rattle.settings_put.specs.Put.{entry_put};

use lent_bytes::number::put_number;
use lent_bytes::place::left;
use settings_entry::{Code, ENTRY, Setting};
use settings_float::above_zero;

// Whether a setting may stand in a list: a margin and a feed rate only where they are finite and above zero, a count always.
pub fn is_good(setting: Setting) -> bool
    ensures answer { result ≡ eqb (float_fault setting) 0 }
    ensures held { Held setting }
{
    match setting {
        Setting::Margin(x) | Setting::Feed(x) => above_zero(x),
        Setting::Count(_) => true,
    }
}

// Puts a code byte and eight bytes.
#[tactic(auto, using(lent_bytes::proofs::Puts::put_byte_number))]
fn put_coded(code: Code, bits: u64, out: &mut [u8], at: usize)
    requires { at + 9 ≤ length out.old }
    ensures { out.new ≡ put_at out.old at (encode_entry (record { kind = code; bits = bits })) }
{
    put_number(u64::from(u8::from(code)), 1, out, at);
    put_number(bits, 8, out, at + 1);
}

// Puts the entry of a setting that may stand in a list.
#[tactic(auto, using(settings_float::proofs::Floats::no_nan, settings_entry::proofs::Faults::good_float))]
fn put_good(setting: Setting, out: &mut [u8], at: usize)
    requires { (at + 9 ≤ length out.old) × (float_fault setting ≡ 0) }
    ensures { out.new ≡ put_at out.old at (encode_entry (entry_of setting)) }
{
    match setting {
        Setting::Margin(x) => put_coded(Code::Margin, x.to_bits(), out, at),
        Setting::Feed(x) => put_coded(Code::Feed, x.to_bits(), out, at),
        Setting::Count(n) => put_coded(Code::Count, n, out, at),
    }
}

// Puts the entry of a setting that may stand in a list, where there is room for it; else no byte changes.
#[tactic(auto, unfolding(crate::specs::Put::entry_put))]
pub fn put_entry(setting: Setting, out: &mut [u8], at: usize)
    ensures { out.new ≡ entry_put out.old at setting }
{
    if left(out.len(), at) >= ENTRY && is_good(setting) {
        put_good(setting, out, at);
    }
}
