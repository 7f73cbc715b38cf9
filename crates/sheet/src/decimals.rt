// Decimal numbers of any length, without leading zeros. What is past 4,294,967,295 no longer counts:
// the value stays at 4,294,967,296, so that it never wraps.
ghost use Rattle.std.specs.Prelude.{◌≡◌, ◌+◌, ◌-◌, ◌*◌, ◌≤◌};
ghost use Rattle.std.proofs.Math.Option.{map};
ghost use Rattle.spec.specs.Sheet.{decimal};
ghost use Rattle.sheet.specs.Decimals.{capped, capped_from, got_decimal};

// One digit more.
fn with_digit(value: u64, c: u8) -> u64
    requires { (value ≤ 4294967296) × (48 ≤ c) × (c ≤ 57) }
    ensures { result ≡ capped (10 * value + (c - 48)) }
{
    let more = 10 * value + u64::from(c - b'0');
    more.min(4294967296)
}

// The digits of a text, whatever the first one is.
fn digits(text: &[u8]) -> Option<u64>
    ensures { got_decimal result ≡ capped_from 0 text.now }
{
    let mut value: u64 = 0;
    for c in text {
        if !c.is_ascii_digit() {
            return None;
        }
        value = with_digit(value, *c);
    }
    Some(value)
}

// The number that a text spells.
pub fn decimal(text: &[u8]) -> Option<u64>
    ensures { got_decimal result ≡ map capped (decimal text.now) }
{
    let (first, rest) = text.split_first()?;
    if *first == b'0' && !rest.is_empty() {
        return None;
    }
    digits(text)
}
