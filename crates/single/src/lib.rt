// A short float (IEEE 754 binary32) as the double of equal value.
#![tactic(auto)]

ghost use Rattle.std.specs.Prelude.{◌≡◌, ◌+◌, ◌*◌, ◌^◌, ◌<◌};
ghost use Rattle.single.specs.Single.{single_field, single_fraction, widened};
ghost use Rattle.single.specs.Steps.{unsigned_bits};

// The bits of the double that stands for every NaN.
const NOT_A_NUMBER: u64 = 0x7FF8_0000_0000_0000;

// The bits of positive infinity.
const INFINITE: u64 = 0x7FF0_0000_0000_0000;

// The exponent field of a short float's bits.
// Kept beside level::exponent_field: one function of both widths would take shift and mask as parameters, and be no plainer.
fn single_field(bits: u32) -> u32
    ensures { result ≡ single_field bits }
{
    (bits >> 23) & 0xFF
}

// The fraction of a short float's bits.
fn single_fraction(bits: u32) -> u32
    ensures { result ≡ single_fraction bits }
{
    bits & 0x7F_FFFF
}

// A subnormal as a double, without the sign: its highest digit becomes the hidden one, so the field follows from where that stands.
fn widen_subnormal(fraction: u32) -> u64
    requires { fraction < 2 ^ 23 }
    ensures { (result ≡ unsigned_bits (fraction * 2 ^ 925)) × (result < 2 ^ 63) }
{
    if fraction == 0 {
        return 0;
    }
    let digits = (32 - u32::leading_zeros(fraction)) as u64;
    ((digits + 872) << 52) + ((fraction as u64) << (53 - digits))
}

// A normal short float as a double, without the sign: 896 more in the field, since its exponents are counted from -127 and a double's from -1023.
fn widen_normal(field: u32, fraction: u32) -> u64
    requires { (0 < field) × (field < 255) × (fraction < 2 ^ 23) }
    ensures { result ≡ (field + 896) * 2 ^ 52 + fraction * 2 ^ 29 }
{
    ((field as u64 + 896) << 52) + ((fraction as u64) << 29)
}

// The bits of the double of equal value. An infinity stays one with its sign; every NaN becomes the same.
pub fn widen(bits: u32) -> u64
    ensures { result ≡ widened bits }
{
    let sign = ((bits >> 31) as u64) << 63;
    let field = single_field(bits);
    let fraction = single_fraction(bits);
    if field == 0 {
        return sign + widen_subnormal(fraction);
    }
    if field < 255 {
        return sign + widen_normal(field, fraction);
    }
    if fraction == 0 {
        sign + INFINITE
    } else {
        NOT_A_NUMBER
    }
}
