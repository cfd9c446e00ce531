// What the lines of a text say, one after the other.
ghost use Rattle.std.specs.Prelude.{◌≡◌};
ghost use Rattle.std.specs.Iterator.{YieldsFirstBy, item_count};
ghost use Rattle.recording_text_line.specs.Line.{is_dated, dated_after, text_says};
ghost use Rattle.recording_text_line.specs.Told.{said_of};
ghost use Rattle.recording_text_line.specs.Left.{said_left};

use crate::line_says;
use crate::record::Record;
use crate::sort::Sort;
use recording_format::DATED_FIRST;
use recording_text_fields::fault::Fault;
use recording_text_fields::piece::Pieces;

// Whether a number is that of the dated kind.
pub fn is_dated(number: u32) -> bool
    ensures { result ≡ is_dated number }
{
    number == u32::from(DATED_FIRST)
}

// Whether the lines behind a line are those of a dated text: where it says the kind, that does.
#[tactic(auto, unfolding(crate::specs::Line::sort))]
pub fn dated_after(dated: bool, said: &Result<Option<Record>, Fault>) -> bool
    ensures { result ≡ dated_after dated (said_of said.now) }
{
    match said {
        Ok(Some(record)) if record.is(Sort::Kind) => is_dated(record.first()),
        _ => dated,
    }
}

// The lines of a text that are left, and whether they are those of a dated one: none is before the kind is said.
#[derive(Clone, Copy)]
pub struct Said<'a> {
    lines: Pieces<'a>,
    dated: bool,
}

impl<'a> Said<'a> {
    // What the lines of a text say.
    pub fn of(text: &'a [u8]) -> Said<'a>
        ensures { said_left result ≡ text_says text.now }
    {
        Said {
            lines: Pieces::lines(text),
            dated: false,
        }
    }
}

impl<'a> Iterator for Said<'a> {
    type Item = Result<Option<Record>, Fault>;

    ghost next_gives = { YieldsFirstBy said_of said_left };

    ghost remaining = { item_count said_left };

    #[tactic(auto, unfolding(crate::specs::Line::all_say))]
    #[inline(always)]
    fn next(&mut self) -> Option<Result<Option<Record>, Fault>> {
        let line = self.lines.next()?;
        let said = line_says(line, self.dated);
        self.dated = dated_after(self.dated, &said);
        Some(said)
    }
}
