// The fields of a line that are numbers.
ghost use Rattle.std.specs.Prelude.{◌≡◌, List, [], ◌∷◌, ◌++◌, ℕ, ◌+◌, ◌-◌, ◌*◌, ◌^◌, ◌≤◌, ◌<◌, min, drop};
ghost use Rattle.recording_text_fields.specs.Faults.{told};
ghost use Rattle.recording_text_fields.specs.Left.{fields_left};
ghost use Rattle.recording_text_fields.specs.Pieces.{fields};
ghost use Rattle.recording_text_fields.specs.Numeral.{is_digit, field_number, last_of_set, handed_set, gathered, numbers_with};

use crate::fault::Fault;
use crate::piece::Fields;

// One more than the largest number of 32 bits: a number that is no smaller counts as this.
const ABOVE: u64 = 4294967296;

// The last bit of a set as it is gathered: no table has a task of this number, so it stands for it and all above.
const LAST_OF_SET: u32 = 32;

// So many numbers are kept, each by its place.
pub const KEPT: usize = 4;

// Whether a byte is a decimal digit.
pub fn is_digit(b: u8) -> bool
    ensures { result ≡ is_digit b }
{
    matches!(b, b'0'..=b'9')
}

// A number with one digit more.
#[inline(always)]
fn grown(n: u64, digit: u8) -> u64
    requires { (n ≤ 4294967296) × ((48 ≤ digit) × (digit ≤ 57)) }
    ensures { result ≡ min (n * 10 + (digit - 48)) 4294967296 }
{
    ABOVE.min(n * 10 + u64::from(digit - b'0'))
}

// What a field says as a number. It is put in line, with `grown`, into the loop over fields: called, it packs each number into a Result,
// which the loop takes apart again.
#[inline(always)]
pub fn number_of(field: &[u8]) -> Result<u32, Fault>
    ensures { told result ≡ field_number field.now }
{
    let mut n = 0u64;
    for digit in field {
        if !is_digit(*digit) {
            return Err(Fault::NoNumber);
        }
        n = grown(n, *digit);
    }
    u32::try_from(n).map_err(|_| Fault::NumberTooLarge)
}

// The bit of a task.
fn bit(task: u32) -> u64
    ensures { result ≡ 2 ^ min task last_of_set }
{
    1u64 << task.min(LAST_OF_SET)
}

// A set as it is handed over: the empty one for one that has the last bit.
pub fn handed_set(set: u64) -> u32
    ensures { result ≡ handed_set set }
{
    u32::try_from(set).unwrap_or(0)
}

// The numbers of fields: how many there are, the first of them, zeros where there are fewer, and all as a set of tasks.
#[derive(Clone, Copy)]
pub struct Numbers {
    pub count: usize,
    pub first: [u32; KEPT],
    pub set: u64,
}

impl Numbers {
    // No numbers yet.
    #[tactic(auto, unfolding(crate::specs::Numeral::set_with))]
    fn none() -> Numbers
        ensures { result ≡ gathered [] }
    {
        Numbers {
            count: 0,
            first: [0; KEPT],
            set: 0,
        }
    }

    // One number more.
    #[inline(always)]
    fn push(&mut self, n: u32)
        requires { self.old.count < 18446744073709551615 }
        ensures { (ns : List ℕ) → self.old ≡ gathered ns → self.new ≡ gathered (ns ++ (n ∷ [])) }
    {
        if self.count < KEPT {
            self.first[self.count] = n;
        }
        self.count += 1;
        self.set |= bit(n);
    }
}

// The numbers of the fields of a line that are left.
pub fn numbers_of(fields: Fields) -> Result<Numbers, Fault>
    ensures { told result ≡ numbers_with [] (fields_left fields.entry) }
{
    let mut numbers = Numbers::none();
    for field in fields {
        numbers.push(number_of(field)?);
    }
    Ok(numbers)
}

// The numbers of the fields of a line from a place on; past its end there are none.
pub fn numbers_from(line: &[u8], from: usize) -> Result<Numbers, Fault>
    ensures { told result ≡ numbers_with [] (fields (drop from line.now)) }
{
    numbers_of(Fields::of(line.get(from..).unwrap_or(&[])))
}
