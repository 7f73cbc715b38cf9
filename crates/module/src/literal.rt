// docs/RULES.md, "The module": "A literal is a float, an integer, a text, a path or a Uri." A text is known by its
// number.
ghost use Rattle.std.specs.Prelude.{◌≡◌, ◌≤◌};
ghost use Rattle.module.specs.Literals.{float_bits, nat_of, Unsigned, NotNegative};

use crate::ids::TextId;

// The bits of infinity, 7ff0000000000000 hex: those of a NaN are above them.
pub const INFINITY_BITS: u64 = 9218868437227405312;

// The largest i64.
pub const LARGEST_INTEGER: u64 = 9223372036854775807;

#[derive(Clone, Copy)]
pub enum Literal {
    Float(f64),
    Integer(i64),
    Text(TextId),
    Path(TextId),
    Uri,
}

// The float of bits as a sheet may have them: at most INFINITY_BITS.
pub fn float_of(bits: u64) -> f64
    requires { bits ≤ 9218868437227405312 }
    ensures { float_bits result ≡ bits }
{
    f64::from_bits(bits)
}

// A NaN has many patterns, so it is left out.
pub fn bits_of(x: f64) -> u64
    requires { Unsigned x }
    ensures { result ≡ float_bits x }
{
    f64::to_bits(x)
}

// The integer of a value as a sheet may have it: at most LARGEST_INTEGER.
pub fn integer_of(value: u64) -> i64
    requires { value ≤ 9223372036854775807 }
    ensures result_value { nat_of result ≡ value }
    ensures not_negative { NotNegative result }
{
    value as i64
}

// No literal is negative. Defined for every integer, so that no caller has to show it.
pub fn value_of(n: i64) -> u64
    ensures { result ≡ nat_of n }
{
    // Tried as `u64::try_from(n).unwrap_or(0)`: the search for its proof reached its limits.
    if n < 0 { 0 } else { n as u64 }
}
