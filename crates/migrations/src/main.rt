// Answers frames, so that the migrator can be held to an oracle over many lists in one run: each is a list, and how its settings are to be
// written back.
//
// A frame is five bytes and a list: the length of the list, two bytes; the number of settings to write back, one; the room that the buffer
// has, two; the bytes of the list. Numbers have their low byte first. Printed are the printout of the list, `written` and how many bytes were
// written, or the refusal, and then the buffer itself, byte by byte.
#![tactic(auto)]

ghost use Rattle.std.specs.Prelude.{◌≤◌};

use recording_lines::put_refused;
use settings::{SETTINGS, Slot, Written, write_back};
use settings_printout::print_migration;
use text_line::{Line, ROOM, show};

// The number of standard input, and of standard output.
const STDIN_FILENO: i32 = 0;

const STDOUT_FILENO: i32 = 1;

// A list and a buffer have at most so many bytes: more than the longest list has.
const MOST: usize = 600;

// The bytes before a frame's list.
const HEAD: usize = 5;

// What each byte of a buffer is before it is lent, so that a touched one shows.
const UNTOUCHED: u8 = 170;

// Writes how many bytes were written.
fn print_length(n: usize) {
    let mut bytes = [0u8; ROOM];
    let line = Line::empty().text(b"written").number(n as u64);
    show(line.put(&mut bytes), &bytes);
}

// Writes a refusal and its place.
fn print_refused(refusal: u8, place: usize) {
    let mut bytes = [0u8; ROOM];
    show(put_refused(refusal, place, &mut bytes), &bytes);
}

// Writes what writing back answered.
fn print_written(w: Written) {
    if w.refusal == 0 {
        print_length(w.place);
    } else {
        print_refused(w.refusal, w.place);
    }
}

// Writes settings back into a lent buffer: its answer and then the buffer.
fn print_lent(settings: [Slot; SETTINGS], number: usize, buffer: &mut [u8]) {
    print_written(write_back(settings, number, buffer));
    io::write_all(STDOUT_FILENO, buffer);
}

// The answer to a frame.
fn answer(list: &[u8], number: usize, room: usize)
    requires { room ≤ 600 }
{
    let m = print_migration(list);
    let mut buffer = [UNTOUCHED; MOST];
    print_lent(m.settings, number, &mut buffer[..room]);
}

// Reads the list of a frame into a lent buffer of its length and answers, unless the input ends inside it: whether to go on.
fn answer_list(list: &mut [u8], number: usize, room: usize) -> bool
    requires { room ≤ 600 }
{
    let n = io::read_full(STDIN_FILENO, list);
    let whole = n == list.len();
    if whole {
        answer(list, number, room);
    }
    whole
}

// Reads a frame and answers: whether to go on. What is no frame ends the run, as the input's end does.
fn answer_frame() -> bool {
    let mut head = [0u8; HEAD];
    if io::read_full(STDIN_FILENO, &mut head) < HEAD {
        return false;
    }
    let [l0, l1, number, r0, r1] = head;
    let length = usize::from(u16::from_le_bytes([l0, l1]));
    let room = usize::from(u16::from_le_bytes([r0, r1]));
    if length > MOST || room > MOST {
        return false;
    }
    let mut list = [0u8; MOST];
    answer_list(&mut list[..length], usize::from(number), room)
}

// A proved loop has to end, and nothing says that an input does, so the loop has a number of turns that no run uses up.
fn main() {
    for _ in 0..u64::MAX {
        if !answer_frame() {
            break;
        }
    }
}
