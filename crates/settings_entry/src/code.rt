// The code byte of an entry: a known code or the refusal, never a stand-in.
ghost use Rattle.std.specs.Prelude.{◌≡◌, ℕ, ◌+◌};
ghost use Rattle.byte_format.specs.Kinded.{first_byte};
ghost use Rattle.settings_entry.specs.Entry as entry;
ghost use Rattle.settings_entry.specs.Found.{code_found};

use refusals::Refusal;

// What a code byte says.
#[derive(Clone, Copy, Debug, PartialEq, Eq)]
pub enum Code {
    Margin,
    Feed,
    Count,
}

// What a byte says as a code: one of the three, or that it is unknown.
impl TryFrom<u8> for Code {
    type Error = Refusal;

    ghost try_from_gives = { λ b said. (q : ℕ) → code_found said q ≡ entry.code_of b q };

    fn try_from(b: u8) -> Result<Code, Refusal> {
        match b {
            1 => Ok(Code::Margin),
            2 => Ok(Code::Feed),
            3 => Ok(Code::Count),
            _ => Err(Refusal::UnknownKind),
        }
    }
}

// The code byte of an entry of this kind.
impl From<Code> for u8 {
    ghost from_gives = { λ code b. b ≡ entry.byte_of code };

    fn from(code: Code) -> u8 {
        match code {
            Code::Margin => 1,
            Code::Feed => 2,
            Code::Count => 3,
        }
    }
}

// What stands at a place as a code byte.
#[tactic(auto, unfolding(byte_format::specs::Kinded::first_byte))]
pub fn code_at(s: &[u8], at: usize) -> Result<Code, Refusal>
    ensures { code_found result (at + 1) ≡ first_byte entry.code_of s.now at }
{
    let b = s.get(at).ok_or(Refusal::Ends)?;
    Code::try_from(*b)
}
