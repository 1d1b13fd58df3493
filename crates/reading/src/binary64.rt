// The bit pattern of an f64: its sign bit above 11 bits of exponent above 52 bits of fraction.
ghost use Rattle.std.specs.Prelude.{◌≡◌, ◌+◌, ◌/◌, ◌%◌, ◌^◌, ◌<◌};
ghost use Rattle.std.specs.Float.Ieee.{of_bits};
ghost use Rattle.std.specs.Float.{binary64};
ghost use Rattle.reading.specs.Reading.{unusable, float_of};
ghost use Rattle.reading.specs.Private.Conversion.{exponent_of, significand_of};

// 2^52: the weight of the exponent, and of the leading digit that a normal number leaves out.
const HIDDEN: u64 = 0x0010_0000_0000_0000;

const INFINITY: u64 = 0x7FF0_0000_0000_0000;

// Ground 7. The patterns from infinity's on are infinite, not a number, or have the sign bit set.
// Compared by hand, since is_nan and the like take an f64, and `from_bits` can make none of a NaN's pattern.
#[tactic(auto, using(crate::proofs::Pattern::unusable_from_infinity))]
pub fn bits_unusable(bits: u64) -> bool
    ensures { result ≡ unusable (of_bits binary64 bits) }
{
    bits >= INFINITY
}

// The f64 of a usable pattern; any other gives 0.
#[tactic(auto, using(std::proofs::lemmas::Float::not_nan_f64_bits, crate::proofs::Pattern::usable_number))]
pub fn float(bits: u64) -> f64
    ensures { result ≡ float_of bits }
{
    if bits_unusable(bits) {
        return f64::from_bits(0);
    }
    f64::from_bits(bits)
}

pub(crate) fn exponent(bits: u64) -> u64
    ensures { result ≡ exponent_of bits }
{
    bits / HIDDEN
}

// The digits, with the leading one of a normal number.
pub(crate) fn significand(bits: u64) -> u64
    ensures { (result ≡ significand_of bits) × (result < 2 ^ 53) }
{
    if bits < HIDDEN {
        return bits;
    }
    HIDDEN + bits % HIDDEN
}
