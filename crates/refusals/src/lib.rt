// Why something is refused. Each reason has its number, under which docs/REFUSALS.md tells of it; what is not refused has 0.
#![tactic(auto)]

ghost use Rattle.std.specs.Prelude.{◌≡◌};
ghost use Rattle.refusals.specs.Numbers.{number, told, placed};

// The reasons, in the order of their numbers, from 1 on. 2, 11 and 18 are those of a settings list and of what is to be written too.
#[derive(Clone, Copy, Debug, PartialEq, Eq)]
pub enum Refusal {
    // the bytes or the numbers end too early
    Ends,
    // no such kind of recording; or as many tasks or settings as there cannot be
    WrongCount,
    TooManyLinks,
    // a link of a table
    LinkOutside,
    DirectToItself,
    UnknownLinkKind,
    DirectToMoreUrgent,
    SecondLink,
    TooManyReaders,
    TooManyEvents,
    // a kind of event, or a code of a setting, that is not known
    UnknownKind,
    // an event
    Outside,
    StillActive,
    NotWaiting,
    NotRunning,
    MoreUrgent,
    BytesLeft,
    NoRoom,
    NotSound,
    DirectWithStart,
    TickFalls,
    TickTooLarge,
    Late,
    NoDeadline,
    Unfinished,
    BadFloat,
}

// The number in the document.
impl From<Refusal> for u8 {
    ghost from_gives = { λ why n. n ≡ number why };

    fn from(why: Refusal) -> u8 {
        match why {
            Refusal::Ends => 1,
            Refusal::WrongCount => 2,
            Refusal::TooManyLinks => 3,
            Refusal::LinkOutside => 4,
            Refusal::DirectToItself => 5,
            Refusal::UnknownLinkKind => 6,
            Refusal::DirectToMoreUrgent => 7,
            Refusal::SecondLink => 8,
            Refusal::TooManyReaders => 9,
            Refusal::TooManyEvents => 10,
            Refusal::UnknownKind => 11,
            Refusal::Outside => 12,
            Refusal::StillActive => 13,
            Refusal::NotWaiting => 14,
            Refusal::NotRunning => 15,
            Refusal::MoreUrgent => 16,
            Refusal::BytesLeft => 17,
            Refusal::NoRoom => 18,
            Refusal::NotSound => 19,
            Refusal::DirectWithStart => 20,
            Refusal::TickFalls => 21,
            Refusal::TickTooLarge => 22,
            Refusal::Late => 23,
            Refusal::NoDeadline => 24,
            Refusal::Unfinished => 25,
            Refusal::BadFloat => 26,
        }
    }
}

impl Refusal {
    // The refusal at its place in the bytes.
    pub fn at(self, place: usize) -> Refused
        ensures { result ≡ record { refusal = self; place = place } }
    {
        Refused {
            refusal: self,
            place,
        }
    }
}

// A refusal and its place in the bytes.
#[derive(Clone, Copy, Debug, PartialEq, Eq)]
pub struct Refused {
    pub refusal: Refusal,
    pub place: usize,
}

// The number of what was judged: 0 where it is not refused.
pub fn told(judged: Result<(), Refusal>) -> u8
    ensures { result ≡ told judged }
{
    match judged {
        Ok(()) => 0,
        Err(refusal) => u8::from(refusal),
    }
}

// What was judged at a place of the bytes: a refusal with that place.
pub fn placed<T>(judged: Result<T, Refusal>, place: usize) -> Result<T, Refused>
    ensures { result ≡ placed judged place }
{
    judged.map_err(|why| why.at(place))
}
