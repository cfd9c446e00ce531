// The printouts of the recordings that the arguments name, each after a line with its name. A word of one byte before a name
// says how: `-` only the last line, `/` every beginning of the recording, and a digit how many numbers the lent list has room for.
#![tactic(auto)]

ghost use Rattle.std.specs.Prelude.{◌≡◌, ◌≤◌};
ghost use Rattle.io.specs.Counts.{IsPrefixLen};

use recording_printout::{NUMBERS, print_last, print_replay};
use std::env::{Env, FillError};
use std::io::Read;
use std::rt::Files;
use std::{fs, str};

// The number of standard output.
const STDOUT_FILENO: i32 = 1;

// The most room that a digit says.
const LITTLE: usize = 9;

// What a list with little room holds before it is lent.
const UNTOUCHED: u32 = 777777;

// A word, a space, a number and a line feed. By `io`, as the printouts are written, so that all comes out in its order.
fn print_named(word: &[u8], n: u64) {
    io::write_all(STDOUT_FILENO, word);
    io::write_all(STDOUT_FILENO, b" ");
    io::print_decimal(STDOUT_FILENO, n);
    io::write_all(STDOUT_FILENO, b"\n");
}

// Reads a file until the room is full, the file ends or a read fails: how many bytes were put at the start of the buffer. By `while`: how many bytes
// a read gives is not known before it.
fn fill(file: &mut impl Read, bytes: &mut [u8]) -> usize
    ensures { IsPrefixLen result bytes.new }
{
    let mut done = 0;
    while done < bytes.len() {
        match file.read(&mut bytes[done..]) {
            Ok(0) | Err(_) => break,
            Ok(n) => done += n,
        }
    }
    done
}

// A missing file is said in a line, and has no bytes.
fn missing() -> usize
    ensures { result ≡ 0 }
{
    io::write_all(STDOUT_FILENO, b"no such file\n");
    0
}

// The bytes of the file that a path names, put at the start of a buffer: how many. A path that is no text names no file that can be opened.
fn load(rt: &impl Files, path: &[u8], bytes: &mut [u8]) -> usize
    ensures { IsPrefixLen result bytes.new }
{
    let Ok(name) = str::from_utf8(path) else {
        return missing();
    };
    match fs::open(rt, name) {
        Ok(mut file) => fill(&mut file, bytes),
        Err(_) => missing(),
    }
}

// The printout of every beginning of a recording, the shortest first, each after a line with its length.
fn print_beginnings(s: &[u8], out: &mut [u32]) {
    for n in 0..=s.len() {
        print_named(b"first", n as u64);
        print_replay(&s[..n], out);
    }
}

// A list's numbers, in a line.
fn print_list(list: &[u32]) {
    io::write_all(STDOUT_FILENO, b"list");
    for x in list {
        io::write_all(STDOUT_FILENO, b" ");
        io::print_decimal(STDOUT_FILENO, u64::from(*x));
    }
    io::write_all(STDOUT_FILENO, b"\n");
}

// The room of a lent list, the printout, and then the whole list.
fn print_lent(s: &[u8], list: &mut [u32]) {
    print_named(b"room", list.len() as u64);
    print_replay(s, list);
    print_list(list);
}

// The printout with little room.
fn print_with_room(s: &[u8], room: usize)
    requires { room ≤ 9 }
{
    let mut list = [UNTOUCHED; LITTLE];
    print_lent(s, &mut list[..room]);
}

// A recording's printout, as the word before its name says.
fn print_recording(s: &[u8], how: Option<u8>) {
    let mut out = [0u32; NUMBERS];
    match how {
        Some(b'-') => print_last(s, &mut out),
        Some(b'/') => print_beginnings(s, &mut out),
        Some(digit @ b'0'..=b'9') => print_with_room(s, usize::from(digit - b'0')),
        _ => print_replay(s, &mut out),
    }
}

// One argument: a word of one byte is kept for the next, and a name's recording is printed, with nothing kept.
fn print_word(rt: &impl Files, word: &[u8], how: Option<u8>) -> Option<u8> {
    if let [only] = word {
        return Some(*only);
    }
    io::write_all(STDOUT_FILENO, word);
    io::write_all(STDOUT_FILENO, b"\n");
    let mut bytes = io::large_buffer();
    let size = load(rt, word, &mut bytes);
    print_recording(&bytes[..size], how);
    None
}

// Every argument in turn. One that is longer than any path counts as empty.
fn main(rt: HostRuntime) {
    let mut how = None;
    let mut word = io::buffer();
    for i in 1..usize::MAX {
        let n = match rt.arg(i, &mut word) {
            Ok(n) => n,
            Err(FillError::NotPresent) => break,
            Err(FillError::TooLong) => 0,
        };
        how = print_word(&rt, &word[..n], how);
    }
}
