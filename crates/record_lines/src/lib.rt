// The lines that tell why a text has no recording, made in a lent buffer.
#![tactic(auto)]

ghost use Rattle.std.specs.Prelude.{◌≡◌};
ghost use Rattle.text_line.specs.Shown.{shown, joined, Put};
ghost use Rattle.record_lines.specs.Lines.{reason, fault_line, refused_line, too_long_line};

use text_line::Line;

// A line with the reason for a fault more. The fault is a number, since any number may be told: one that is no fault's has words of its own.
fn with_reason(line: Line, fault: u8) -> Line
    ensures { shown result ≡ joined (shown line) (reason fault) }
{
    match fault {
        1 => line.text(
            b": the first word is none of K, T, L, A, S, R and F, or with 255 no tick with an event behind it",
        ),
        2 => line.text(b": not a number"),
        3 => line.text(b": a number above 4294967295"),
        4 => line.text(b": too few numbers"),
        5 => line.text(b": too many numbers"),
        6 => line.text(b": the kind, K, must stand first and only there"),
        _ => line.text(b": cannot be read"),
    }
}

// A line of a text that cannot be read, and why.
pub fn put_fault(line: usize, fault: u8, out: &mut [u8]) -> usize
    ensures { Put (fault_line line fault) out.old result out.new }
{
    let named = Line::empty().text(b"line").number(line as u64);
    let whole = with_reason(named, fault);
    whole.put(out)
}

// A line of a text whose record is refused: the refusal and its place in the recording.
pub fn put_refused(line: usize, refusal: u8, place: usize, out: &mut [u8]) -> usize
    ensures { Put (refused_line line refusal place) out.old result out.new }
{
    let whole = Line::empty()
        .text(b"line")
        .number(line as u64)
        .text(b": refused")
        .number(u64::from(refusal))
        .text(b" at")
        .number(place as u64);
    whole.put(out)
}

// A text that is too long.
pub fn put_too_long(out: &mut [u8]) -> usize
    ensures { Put too_long_line out.old result out.new }
{
    let whole = Line::empty().text(b"the text is longer than 1048576 bytes");
    whole.put(out)
}
