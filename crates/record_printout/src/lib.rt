// The recording of a text, written to standard output; or why there is none, a line on standard error.
//
// What a program writes no contract can say, so of the functions that write it is proved that they are safe, that they end, and how many bytes the
// recording has. What the lines hold is said by the contracts of `record_lines`, and which recording a text has by that of `make_recording`.
#![tactic(auto)]

ghost use Rattle.std.specs.Prelude.{◌≡◌};
ghost use Rattle.record_printout.specs.Printed.{length_printed};

use record_lines::{put_fault, put_refused, put_too_long};
use recording_make::{Unmade, make_recording};
use recording_table::RECORDING;
use text_line::{ROOM, show, show_error};

// The bytes of the longest text.
pub const TEXT: usize = 1048576;

// Tells on standard error why a text has no recording.
fn tell(unmade: Unmade) {
    let mut room = [0u8; ROOM];
    let n = match unmade {
        Unmade::Unreadable { fault, line } => put_fault(line, u8::from(fault), &mut room),
        Unmade::Refused {
            refusal,
            place,
            line,
        } => put_refused(line, refusal, place, &mut room),
    };
    show_error(n, &room);
}

// Tells on standard error that the text is too long.
fn tell_too_long() {
    let mut room = [0u8; ROOM];
    show_error(put_too_long(&mut room), &room);
}

// Writes the recording of a text to standard output, or tells on standard error why there is none: how many bytes the recording has, 0 for none.
pub fn print_recording(text: &[u8]) -> usize
    ensures { result ≡ length_printed text.now }
{
    if TEXT < text.len() {
        tell_too_long();
        return 0;
    }
    let mut out = [0u8; RECORDING];
    match make_recording(text, &mut out) {
        Ok(n) => {
            show(n, &out);
            n
        }
        Err(unmade) => {
            tell(unmade);
            0
        }
    }
}
