// A line of text, made piece by piece: what no longer fits its room is cut off, and nothing is asked of whoever makes one.
#![tactic(auto)]

ghost use Rattle.std.specs.Prelude.{◌≡◌, length};
ghost use Rattle.text_line.specs.Numeral.{space, digits, number};
ghost use Rattle.text_line.specs.Shown.{shown, joined, feed, fit, empty_line, with_text, Put};

// The room of a line, its line feed among it.
pub const ROOM: usize = 384;

// The number of standard output, and of standard error.
const STDOUT_FILENO: i32 = 1;

const STDERR_FILENO: i32 = 2;

// A line: its first `size` bytes are there. An array with its size beside, since `shown` speaks of both and no heap is used. Not by `Display`:
// which bytes `write!` puts is promised of a String alone, which is on the heap.
#[derive(Clone, Copy)]
pub struct Line {
    pub bytes: [u8; ROOM],
    pub size: usize,
}

impl Line {
    // A line with nothing in it.
    pub fn empty() -> Line
        ensures { result ≡ empty_line }
    {
        Line {
            bytes: [0u8; ROOM],
            size: 0,
        }
    }

    // One text more.
    pub fn text(mut self, text: &[u8]) -> Line
        ensures answer { result ≡ with_text self text.now }
        ensures shows { shown result ≡ joined (shown self) text.now }
    {
        let at = self.size.min(ROOM);
        let n = (ROOM - at).min(text.len());
        self.bytes[at..at + n].copy_from_slice(&text[..n]);
        self.size = at + n;
        self
    }

    // A space and a number in decimal.
    pub fn number(self, n: u64) -> Line
        ensures answer { result ≡ with_text (with_text self space) (digits n) }
        ensures shows { shown result ≡ joined (shown self) (number n) }
    {
        let mut digits = [0u8; 20];
        let k = io::decimal(n, &mut digits);
        self.text(b" ").text(&digits[..k])
    }

    // The line with its line feed, at the start of a lent buffer: how many bytes it has. Where the buffer has no room for it, it is left as
    // it was, and the answer is 0.
    pub fn put(self, out: &mut [u8]) -> usize
        ensures { Put (joined (shown self) feed) out.old result out.new }
    {
        let whole = self.text(b"\n");
        let size = whole.size.min(ROOM);
        if out.len() < size {
            return 0;
        }
        out[..size].copy_from_slice(&whole.bytes[..size]);
        size
    }
}

// Writes the first n bytes of a made line to an open file: how many are handed over, none where the line has fewer than n. The length stands beside
// the line, as `put` answers it, and a file is a number, as `io` takes it.
fn write_line(file: i32, n: usize, line: &[u8]) -> usize
    ensures { result ≡ fit n (length line.now) }
{
    let Some(part) = line.get(..n) else {
        return 0;
    };
    io::write_all(file, part);
    n
}

// Writes the first n bytes of a made line to standard output: how many are handed over, none where the line has fewer than n.
pub fn show(n: usize, line: &[u8]) -> usize
    ensures { result ≡ fit n (length line.now) }
{
    write_line(STDOUT_FILENO, n, line)
}

// The same to standard error.
pub fn show_error(n: usize, line: &[u8]) -> usize
    ensures { result ≡ fit n (length line.now) }
{
    write_line(STDERR_FILENO, n, line)
}
