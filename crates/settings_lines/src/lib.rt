// The lines of migrated settings, made in a lent buffer.
#![tactic(auto)]

ghost use Rattle.std.specs.Prelude.{◌≡◌, [], ◌∷◌, ◌++◌, ◌≤◌, ◌<◌, length};
ghost use Rattle.text_line.specs.Numeral.{number as Numeral·number};
ghost use Rattle.text_line.specs.Shown.{shown, joined, line_of, Put};
ghost use Rattle.settings_decimal.specs.Decimal.{digit_at, six_digits};
ghost use Rattle.settings_lines.specs.Hex.{hex_of};
ghost use Rattle.settings_lines.specs.Words.{text_setting, text_bits};
ghost use Rattle.settings_lines.specs.Lines.{cut_words, in_millionths, value, float_line, margin_line, feed_line, count_line, migrated_line};

use settings_decimal::in_decimal;
use text_line::{Line, ROOM};

// Room for the longest line.
pub const LINE: usize = ROOM;

// The decimal digit of n at the place of worth w.
fn digit(n: u64, w: u64) -> u8
    requires { 0 < w }
    ensures { result ≡ digit_at w n }
{
    b'0' + (n / w % 10) as u8
}

// A line with the last six decimal digits of a number more.
#[tactic(auto, unfolding(settings_decimal::specs::Decimal::six_digits))]
fn with_six(line: Line, n: u64) -> Line
    ensures { shown result ≡ joined (shown line) (six_digits n) }
{
    let digits = [
        digit(n, 100000),
        digit(n, 10000),
        digit(n, 1000),
        digit(n, 100),
        digit(n, 10),
        digit(n, 1),
    ];
    line.text(&digits)
}

// A line with the 16 hexadecimal digits of a number more.
fn with_hex(line: Line, n: u64) -> Line
    ensures { shown result ≡ joined (shown line) (hex_of n) }
{
    let mut digits = [0u8; 16];
    let k = io::hex(n, 16, &mut digits);
    line.text(&digits[..k])
}

// A line with what is said of digits that are cut off more.
#[tactic(auto, using(crate::proofs::Whole::pieces), unfolding(crate::specs::Lines::cut_words))]
fn with_cut(line: Line, unit: &[u8], cut: bool) -> Line
    ensures { shown result ≡ joined (shown line) (cut_words unit.now cut) }
{
    if cut {
        line.text(b" (cut off: less than 0.000001")
            .text(unit)
            .text(b")")
    } else {
        line
    }
}

// A line with so many millionths more, in decimal, with their unit.
#[tactic(auto, using(crate::proofs::Whole::pieces))]
fn with_millionths(line: Line, unit: &[u8], n: u64, cut: bool) -> Line
    ensures { shown result ≡ joined (shown line) (in_millionths unit.now n cut) }
{
    let whole = line.number(n / 1000000).text(b".");
    let all = with_six(whole, n).text(unit);
    with_cut(all, unit, cut)
}

// A line with a float more, in decimal, with its unit.
#[tactic(auto, using(crate::proofs::Whole::value_pieces), unfolding(crate::specs::Lines::value))]
fn with_value(line: Line, unit: &[u8], bits: u64) -> Line
    ensures { shown result ≡ joined (shown line) (value unit.now bits) }
{
    match in_decimal(bits) {
        Some(d) => with_millionths(line, unit, d.millionths, d.cut),
        None => line
            .text(b" at least 8796093022208")
            .text(unit)
            .text(b" (cut off: what is above)"),
    }
}

// The start of a setting's line: its number in the list, and its kind.
#[tactic(auto, using(crate::proofs::Whole::pieces))]
fn setting(kind: &[u8], place: u64) -> Line
    ensures { shown result ≡ joined [] (text_setting ++ (Numeral·number place ++ kind.now)) }
{
    Line::empty().text(b"setting").number(place).text(kind)
}

// The end of a setting's line: its exact bits.
#[tactic(auto, using(crate::proofs::Whole::pieces))]
fn put_bits(line: Line, bits: u64, out: &mut [u8]) -> usize
    ensures { Put (joined (shown line) (line_of (text_bits ∷ hex_of bits ∷ []))) out.old result out.new }
{
    let whole = with_hex(line.text(b", bits "), bits);
    whole.put(out)
}

// A setting that is a float: its line.
fn put_float(kind: &[u8], unit: &[u8], place: u64, bits: u64, out: &mut [u8]) -> usize
    requires { (length kind.now ≤ 8) × (length unit.now ≤ 8) }
    ensures { Put (float_line kind.now unit.now place bits) out.old result out.new }
{
    let line = with_value(setting(kind, place), unit, bits);
    put_bits(line, bits, out)
}

// A margin, in millimetres.
pub fn put_margin(number: usize, bits: u64, out: &mut [u8]) -> usize
    ensures { Put (margin_line number bits) out.old result out.new }
{
    put_float(b" margin", b" mm", number as u64, bits, out)
}

// A feed rate, in millimetres per second.
pub fn put_feed(number: usize, bits: u64, out: &mut [u8]) -> usize
    ensures { Put (feed_line number bits) out.old result out.new }
{
    put_float(b" feed", b" mm/s", number as u64, bits, out)
}

// A count.
pub fn put_count(number: usize, n: u64, out: &mut [u8]) -> usize
    ensures { Put (count_line number n) out.old result out.new }
{
    let line = setting(b" count", number as u64).number(n);
    put_bits(line, n, out)
}

// How many settings were migrated.
pub fn put_migrated(number: usize, out: &mut [u8]) -> usize
    ensures { Put (migrated_line number) out.old result out.new }
{
    let line = Line::empty().text(b"migrated").number(number as u64);
    line.put(out)
}
