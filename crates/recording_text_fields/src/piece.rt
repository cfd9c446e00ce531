// Pieces of bytes: the lines of a text, and the fields of a line.
ghost use Rattle.std.specs.Prelude.{◌≡◌, true, false, ◌∷◌, ◌≤◌, ◌<◌, ◌^◌, length, get_or};
ghost use Rattle.std.specs.Iterator.{YieldsFirstRef, item_count};
ghost use Rattle.recording_text_fields.specs.Pieces.{separator, pieces, lines, fields, Ends};

// Whether a byte separates the fields inside a line, or lines.
pub fn separates(inner: bool, b: u8) -> bool
    ensures { result ≡ separator inner b }
{
    if inner {
        matches!(b, b' ' | b'\t' | b'\r')
    } else {
        b == b'\n'
    }
}

// Where the piece from a place on ends: at the next separator, or with the bytes; past their end at the place itself. It is put in line, and so is what
// calls it, up to the loops over lines and fields, so that the compiler knows there which bytes separate.
#[inline(always)]
pub fn piece_end(s: &[u8], at: usize, inner: bool) -> usize
    ensures within { at < length s.now → Ends (separator inner) s.now at result }
    ensures past { length s.now ≤ at → result ≡ at }
{
    let Some(left) = s.get(at..) else {
        return at;
    };
    let size = left
        .iter()
        .position(|b| separates(inner, *b))
        .unwrap_or(left.len());
    at + size
}

// The first piece of some bytes, and the bytes behind its separator.
#[inline(always)]
fn first_piece(s: &[u8], inner: bool) -> (&[u8], &[u8])
    requires { 0 < length s.now }
    ensures { pieces (separator inner) s.now ≡ result.0.now ∷ pieces (separator inner) result.1.now }
{
    let (piece, behind) = s.split_at(piece_end(s, 0, inner));
    match behind {
        [_, left @ ..] => (piece, left),
        [] => (piece, behind),
    }
}

// Pieces: what stands before each separator, and behind the last one, unless the bytes end there.
#[derive(Clone, Copy)]
pub struct Pieces<'a> {
    left: &'a [u8],
    inner: bool,
    ghost few: { length left.now < 2 ^ 63 },
}

impl<'a> Pieces<'a> {
    ghost use Rattle.recording_text_fields.specs.Left.{pieces_left};

    // The lines of a text.
    pub fn lines(text: &'a [u8]) -> Pieces<'a>
        ensures { pieces_left result ≡ lines text.now }
    {
        Pieces {
            left: text,
            inner: false,
        }
    }
}

impl<'a> Iterator for Pieces<'a> {
    ghost use Rattle.recording_text_fields.specs.Left.{pieces_left};

    type Item = &'a [u8];

    ghost next_gives = { YieldsFirstRef pieces_left };

    ghost remaining = { item_count pieces_left };

    #[inline(always)]
    fn next(&mut self) -> Option<&'a [u8]> {
        if self.left.is_empty() {
            return None;
        }
        let (piece, left) = first_piece(self.left, self.inner);
        self.left = left;
        Some(piece)
    }
}

// What is left of a line from the first byte of its first field on.
#[inline(always)]
fn from_first_field(line: &[u8]) -> &[u8]
    ensures same { fields result.now ≡ fields line.now }
    ensures begins { 0 < length result.now → separator true (get_or result.now 0 0) ≡ false }
{
    let blanks = line.iter().take_while(|b| separates(true, **b)).count();
    line.split_at(blanks).1
}

// The fields of a line: its pieces that have a byte.
#[derive(Clone, Copy)]
pub struct Fields<'a> {
    left: &'a [u8],
    ghost few: { length left.now < 2 ^ 63 },
}

impl<'a> Fields<'a> {
    ghost use Rattle.recording_text_fields.specs.Left.{fields_left};

    pub fn of(line: &'a [u8]) -> Fields<'a>
        ensures { fields_left result ≡ fields line.now }
    {
        Fields { left: line }
    }
}

impl<'a> Iterator for Fields<'a> {
    ghost use Rattle.recording_text_fields.specs.Left.{fields_left};

    type Item = &'a [u8];

    ghost next_gives = { YieldsFirstRef fields_left };

    ghost remaining = { item_count fields_left };

    #[inline(always)]
    fn next(&mut self) -> Option<&'a [u8]> {
        let line = from_first_field(self.left);
        if line.is_empty() {
            None
        } else {
            let (field, left) = line.split_at(piece_end(line, 0, true));
            self.left = left;
            Some(field)
        }
    }
}
