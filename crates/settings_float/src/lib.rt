// Which floats are finite and above zero: by their bits before there is a float, and by comparing where there is one.
#![tactic(auto)]

ghost use Rattle.std.specs.Prelude.{◌≡◌, T};
ghost use Rattle.std.specs.Float.{binary64};
ghost use Rattle.std.specs.Float.Ieee.{fits, of_bits};
ghost use Rattle.settings_float.specs.AboveZero.{above_zero};

// The bits of the infinity above zero: from here on there are infinities, NaNs and numbers with a minus sign.
const INFINITE: u64 = 0x7ff0_0000_0000_0000;

// Whether bits are those of a finite number above zero. No float is made of them to find out.
#[tactic(auto, using(crate::proofs::Floats::above_zero_bits))]
pub fn bits_above_zero(bits: u64) -> bool
    ensures { result ≡ above_zero (of_bits binary64 bits) }
{
    0 < bits && bits < INFINITE
}

// Whether a float is finite and above zero: a NaN is neither above nor below anything.
#[tactic(auto, using(crate::proofs::Floats::above_zero_compared))]
pub fn above_zero(x: f64) -> bool
    ensures answer { result ≡ above_zero x }
    ensures held { T (fits binary64 x) }
{
    0.0 < x && x.is_finite()
}
