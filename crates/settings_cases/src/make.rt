// Floats to write back, made of bits.

// The sign's bit, and the bits of the infinity above zero.
const SIGN: u64 = 0x8000_0000_0000_0000;

const INFINITE: u64 = 0x7ff0_0000_0000_0000;

// The float of these bits. A NaN is that of the library: what `from_bits` would make of a NaN's bits nothing says.
#[tactic(auto, using(std::proofs::lemmas::Float::not_nan_f64_bits))]
pub(crate) fn float_of(bits: u64) -> f64 {
    if INFINITE < bits % SIGN {
        f64::NAN
    } else {
        f64::from_bits(bits)
    }
}
