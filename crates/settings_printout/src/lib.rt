// The printout of a settings list, written to standard output: a line for each setting, or the refusal alone.
//
// What a program writes no contract can say, so of the functions here it is proved that they are safe and that they end. Each line is made
// by `settings_lines` or `recording_lines`, whose contracts say what stands in it; the settings are those that `settings::migrate` answers
// with, and none of them is a NaN, of which no bits are known.
#![tactic(auto)]

ghost use Rattle.std.specs.Prelude.{◌≡◌, ◌≤◌};
ghost use Rattle.settings_list.specs.Migration.{migration};
ghost use Rattle.settings_entry.specs.Setting.{float_fault};
ghost use Rattle.settings.specs.Writing.{AllGood};
ghost use Rattle.text_line.specs.Shown.{Put};
ghost use Rattle.settings_printout.specs.Lines.{setting_line};

use recording_lines::put_refused;
use settings::{Migration, SETTINGS, Setting, Slot, migrate};
use settings_entry::ENTRY;
use settings_lines::{LINE, put_count, put_feed, put_margin, put_migrated};
use text_line::show;

// The bytes of the longest list, its count and its entries, and one more so that an extra byte is seen.
pub const BYTES: usize = 1 + ENTRY * SETTINGS + 1;

// The line of a setting, with its number in the list. A margin and a feed rate are shown by the bits of their float.
#[tactic(auto, using(settings_float::proofs::Floats::no_nan, settings_entry::proofs::Faults::good_float))]
fn put_setting(number: usize, setting: Setting, out: &mut [u8]) -> usize
    requires { float_fault setting ≡ 0 }
    ensures { Put (setting_line number setting) out.old result out.new }
{
    match setting {
        Setting::Margin(x) => put_margin(number, x.to_bits(), out),
        Setting::Feed(x) => put_feed(number, x.to_bits(), out),
        Setting::Count(n) => put_count(number, n, out),
    }
}

// Writes the line of a setting.
fn print_setting(number: usize, setting: Setting)
    requires { float_fault setting ≡ 0 }
{
    let mut line = [0u8; LINE];
    show(put_setting(number, setting, &mut line), &line);
}

// Writes the lines of the first n settings, which have the numbers from 1 on.
#[tactic(auto, using(settings::proofs::Writing::slot_taken))]
fn print_settings(settings: &[Slot; SETTINGS], n: usize)
    requires { (n ≤ 64) × AllGood settings.now n }
{
    for (i, slot) in settings[..n].iter().enumerate() {
        print_setting(i + 1, slot.setting);
    }
}

// Writes how many settings were migrated.
fn print_migrated(number: usize) {
    let mut line = [0u8; LINE];
    show(put_migrated(number, &mut line), &line);
}

// Writes a refusal and its place.
fn print_refused(refusal: u8, place: usize) {
    let mut line = [0u8; LINE];
    show(put_refused(refusal, place, &mut line), &line);
}

// Writes what a list says: its settings and their number, or, where it is refused, the refusal and no setting at all. Hands on what was
// migrated.
pub fn print_migration(s: &[u8]) -> Migration
    ensures { result ≡ migration s.now }
{
    let m = migrate(s);
    if m.refusal == 0 {
        print_settings(&m.settings, m.number);
        print_migrated(m.number);
    } else {
        print_refused(m.refusal, m.place);
    }
    m
}
