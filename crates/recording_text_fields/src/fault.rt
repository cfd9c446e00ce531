// Why a line of a text cannot be read.
ghost use Rattle.std.specs.Prelude.{◌≡◌};
ghost use Rattle.recording_text_fields.specs.Faults.{number};

// The reasons, in the order of their numbers, from 1 on; what can be read has 0.
#[derive(Clone, Copy, Debug, PartialEq, Eq)]
pub enum Fault {
    // the first field is no letter of a record, or not one that may stand there
    UnknownWord,
    NoNumber,
    NumberTooLarge,
    TooFewNumbers,
    TooManyNumbers,
    // the kind is not said first, or is said again
    KindNotFirst,
}

// The number of a reason.
impl From<Fault> for u8 {
    ghost from_gives = { λ fault n. n ≡ number fault };

    fn from(fault: Fault) -> u8 {
        match fault {
            Fault::UnknownWord => 1,
            Fault::NoNumber => 2,
            Fault::NumberTooLarge => 3,
            Fault::TooFewNumbers => 4,
            Fault::TooManyNumbers => 5,
            Fault::KindNotFirst => 6,
        }
    }
}
