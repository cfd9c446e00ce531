// What is printed of answers.
use settings::{SETTINGS, Setting, Slot, migrate, write_back};

// The number of standard output.
const STDOUT_FILENO: i32 = 1;

// The most room that a buffer has: more than the longest list.
pub const MOST: usize = 600;

// What each byte of a buffer is before it is lent.
const UNTOUCHED: u8 = 170;

pub(crate) fn text(s: &[u8]) {
    io::write_all(STDOUT_FILENO, s);
}

fn number(n: u64) {
    text(b" ");
    io::print_decimal(STDOUT_FILENO, n);
}

// A number of so many hexadecimal digits.
fn hex(n: u64, digits: usize) {
    io::print_hex(STDOUT_FILENO, n, digits);
}

// A float by its bits. A NaN's are not known.
fn float(x: f64) {
    if x.is_nan() {
        text(b"nan");
    } else {
        hex(x.to_bits(), 16);
    }
}

// A setting as its letter and its bits.
fn setting(setting: Setting) {
    match setting {
        Setting::Margin(x) => {
            text(b" M");
            float(x);
        }
        Setting::Feed(x) => {
            text(b" F");
            float(x);
        }
        Setting::Count(n) => {
            text(b" C");
            hex(n, 16);
        }
    }
}

// The first n settings.
fn first_settings(settings: &[Slot; SETTINGS], n: usize) {
    for slot in settings.iter().take(n) {
        setting(slot.setting);
    }
}

// Whether all slots from `n` on are counts of 0.
fn zeros_from(settings: &[Slot; SETTINGS], n: usize) -> bool {
    settings
        .iter()
        .skip(n)
        .all(|slot| matches!(slot.setting, Setting::Count(0)))
}

// What a list is migrated to.
pub(crate) fn migrated(list: &[u8]) {
    let m = migrate(list);
    number(u64::from(m.refusal));
    number(m.place as u64);
    number(m.number as u64);
    first_settings(&m.settings, m.number);
    if zeros_from(&m.settings, m.number) {
        text(b" zeros");
    } else {
        text(b" filled");
    }
}

// The first n bytes; all where there are fewer.
pub(crate) fn first_bytes(s: &[u8], n: usize) -> &[u8] {
    s.get(..n).unwrap_or(s)
}

// Bytes, two digits each.
fn bytes(s: &[u8]) {
    for b in s {
        hex(u64::from(*b), 2);
    }
}

// Whether all bytes from `n` on are as before.
fn kept_from(s: &[u8], n: usize) -> bool {
    s.iter().skip(n).all(|b| *b == UNTOUCHED)
}

// A buffer after n bytes were written into it.
fn buffer(s: &[u8], n: usize) {
    if 0 < n {
        text(b" ");
        bytes(first_bytes(s, n));
    }
    if kept_from(s, n) {
        text(b" kept");
    } else {
        text(b" touched");
    }
}

// What writing back into a lent buffer comes to.
fn lent(settings: [Slot; SETTINGS], n: usize, out: &mut [u8]) {
    let w = write_back(settings, n, out);
    number(u64::from(w.refusal));
    number(w.place as u64);
    if w.refusal == 0 {
        buffer(out, w.place);
    } else {
        buffer(out, 0);
    }
}

// What writing back into a buffer of so many bytes comes to, 600 at most.
pub(crate) fn written(settings: [Slot; SETTINGS], n: usize, room: usize) {
    let mut out = [UNTOUCHED; MOST];
    lent(settings, n, &mut out[..room.min(MOST)]);
}
