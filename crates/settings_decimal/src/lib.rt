// A float above zero in decimal: its whole millionths, and whether anything is cut off below them.
#![tactic(auto)]

ghost use Rattle.std.specs.Prelude.{◌≡◌, true, false, ◌+◌, ◌*◌, ◌/◌, ◌%◌, ◌^◌, ◌<◌, MatchOption};
ghost use Rattle.settings_decimal.specs.Decimal.{under, large, significand as Decimal·significand};
ghost use Rattle.settings_decimal.specs.Answer.{decimal_of};

// A float in decimal: its whole millionths and whether there is more.
#[derive(Clone, Copy, Debug, PartialEq, Eq)]
pub struct Decimal {
    pub millionths: u64,
    pub cut: bool,
}

// 2 to the 52: what a one in the exponent's field is worth.
const FIELD: u64 = 4503599627370496;

// The digits of a float, with the leading one.
#[tactic(auto, unfolding(crate::specs::Decimal::significand))]
fn significand(bits: u64) -> u64
    ensures { result ≡ Decimal·significand bits }
{
    match bits / FIELD {
        0 => bits % FIELD,
        _ => FIELD + bits % FIELD,
    }
}

// By how many binary digits the units of a float lie below millionths, unless it is too large to be shown.
#[tactic(auto, using(crate::proofs::Divisions::field_steps))]
fn below(bits: u64) -> Option<u64>
    ensures { MatchOption result (large bits ≡ true) (λ k. (large bits ≡ false) × (k + 10 ≡ under bits)) }
{
    match bits / FIELD {
        0 => Some(1064),
        field => 1065u64.checked_sub(field),
    }
}

// A significand times 15625 / 16, cut to a whole number: a million is 15625 times 2 to the 6, so these are the units of which
// 2 to the `below` are a millionth.
fn units(m: u64) -> u64
    requires { m < 9007199254740992 }
    ensures { result ≡ m * 15625 / 16 }
{
    m / 16 * 15625 + m % 16 * 15625 / 16
}

// A number divided by 2 to the k, and the remainder.
#[tactic(auto, using(crate::proofs::Divisions::power_steps))]
fn divided(n: u64, k: u64) -> (u64, u64)
    ensures { (result.0 ≡ n / 2 ^ k) × (result.1 ≡ n % 2 ^ k) }
{
    if k < 64 {
        (n >> k, n % (1 << k))
    } else {
        (0, n)
    }
}

// The float of 64 bits in decimal, unless it is too large to be shown.
#[tactic(auto, using(crate::proofs::Divisions::decimal_steps), unfolding(crate::specs::Answer::decimal_of))]
pub fn in_decimal(bits: u64) -> Option<Decimal>
    ensures { result ≡ decimal_of bits }
{
    let k = below(bits)?;
    let m = significand(bits);
    let (millionths, rest) = divided(units(m), k);
    let cut = m % 16 != 0 || rest != 0;
    Some(Decimal { millionths, cut })
}
