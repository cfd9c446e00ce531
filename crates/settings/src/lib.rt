// The settings of an old station: its list read into settings, and settings written back into a list.
//
// What is unknown never becomes a default: each entry is a setting with its own eight bytes, or the refusal of the whole list.
#![tactic(auto)]

ghost use Rattle.std.specs.Prelude.{◌≡◌, length};
ghost use Rattle.byte_format.specs.Number.{Bytes};
ghost use Rattle.settings_list.specs.Migration.{migration};
ghost use Rattle.settings.specs.Writing.{HeldSlots, written, back_buffer};

pub use settings_entry::Setting;
pub use settings_list::{Migration, SETTINGS, Slot};

mod write;

// What writing back came to: the refusal, 0 for none, and its place in the list as it would be written; for none, how many bytes were written.
// Numbers, since the demands speak of them.
#[derive(Clone, Copy)]
pub struct Written {
    pub refusal: u8,
    pub place: usize,
}

// Reads an old station's list.
pub fn migrate(bytes: &[u8]) -> Migration
    ensures answer { result ≡ migration bytes.now }
    ensures bytes { Bytes bytes.now }
{
    settings_list::read_list(bytes)
}

// Writes so many settings back into a lent buffer, as an old station's list.
pub fn write_back(settings: [Slot; SETTINGS], number: usize, out: &mut [u8]) -> Written
    ensures answer { result ≡ written settings number (length out.old) }
    ensures buffer { out.new ≡ back_buffer settings number out.old }
    ensures held { result.refusal ≡ 0 → HeldSlots settings number }
{
    write::write_list(settings, number, out)
}
