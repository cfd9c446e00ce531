// The sorts of records.
ghost use Rattle.std.specs.Prelude.{◌≡◌};
ghost use Rattle.recording_text_line.specs.Line.{sort};
ghost use Rattle.recording_text_line.specs.Sorts.{sorted};

#[derive(Clone, Copy, Debug, PartialEq, Eq)]
pub enum Sort {
    Task,
    Link,
    Event,
    Kind,
}

// The sort of a record by its letter.
#[tactic(auto, unfolding(crate::specs::Line::sort))]
pub fn sort_of(letter: u8) -> Option<Sort>
    ensures { sorted result ≡ sort letter }
{
    match letter {
        b'T' => Some(Sort::Task),
        b'L' => Some(Sort::Link),
        b'A' | b'S' | b'R' | b'F' => Some(Sort::Event),
        b'K' => Some(Sort::Kind),
        _ => None,
    }
}
