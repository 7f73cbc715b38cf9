// A text: lowercase hex, two digits a byte. The form of the whole text is judged before its kind's
// rule (2 before 3). Below the form, a digit that is none counts as 0, so that no function here needs
// a judged text to be safe.
ghost use Rattle.std.specs.Prelude.{◌≡◌, ◌+◌, ◌*◌, ◌/◌, ◌≤◌, ◌<◌, true, not, length, position};
ghost use Rattle.words.specs.Runs.{splice};
ghost use Rattle.spec.specs.Kinds.{digits};
ghost use Rattle.spec.specs.Sheet.{hex, all_digits, is_empty, is_float, text_fits, wrong_text, field};
ghost use Rattle.sheet.specs.Rules.{rule_of};
ghost use Rattle.sheet.specs.Texts.{is_hex, digit_of, decoded, got_text, TextInside};
ghost use Rattle.sheet.specs.Verdicts.{got_span, FormedIn};

use crate::faults::{Fault, Refused};
use crate::kinds::TextRule;
use crate::position::{Position, Span};
use module::INFINITY_BITS;

fn is_hex(c: u8) -> bool
    ensures { result ≡ is_hex c }
{
    matches!(c, b'0'..=b'9' | b'a'..=b'f')
}

fn hex_digit(c: u8) -> u8
    ensures { (result ≡ digit_of c) × (result < 16) }
{
    match c {
        b'0'..=b'9' => c - b'0',
        b'a'..=b'f' => 10 + (c - b'a'),
        _ => 0,
    }
}

// The byte of two digits.
fn hex_byte(high: u8, low: u8) -> u8
    ensures { result ≡ 16 * digit_of high + digit_of low }
{
    16 * hex_digit(high) + hex_digit(low)
}

// How many hex digits come before the first byte that is none.
fn digits_end(rest: &[u8]) -> Option<usize>
    ensures { result ≡ position (λ c. not (is_hex c)) rest.now }
{
    rest.iter().position(|c| !is_hex(*c))
}

// Whether no byte is there: a digit alone is none.
fn is_empty(text: &[u8]) -> bool
    ensures { result ≡ is_empty (decoded text.now) }
{
    text.len() < 2
}

// Whether all bytes are decimal digits.
fn all_digits(text: &[u8]) -> bool
    ensures { result ≡ all_digits (decoded text.now) }
{
    let (pairs, _) = text.as_chunks::<2>();
    pairs
        .iter()
        .all(|[high, low]| hex_byte(*high, *low).is_ascii_digit())
}

// One byte or more, all of them digits.
fn is_number(text: &[u8]) -> bool
    ensures { result ≡ text_fits digits 0 (decoded text.now) }
{
    !is_empty(text) && all_digits(text)
}

// Eight bytes, their number at most that of positive infinity.
fn is_float(text: &[u8]) -> bool
    ensures { result ≡ is_float (decoded text.now) }
{
    if text.len() / 2 != 8 {
        return false;
    }
    let mut bytes = [0; 8];
    decode_text(text, &mut bytes, 0);
    u64::from_be_bytes(bytes) <= INFINITY_BITS
}

// Whether a text fits its kind's rule. A flag is a number, as in the definitions: what it says depends on the kind.
fn fits(text: &[u8], rule: TextRule, flag: u32) -> bool
    ensures { result ≡ text_fits (rule_of rule) flag (decoded text.now) }
{
    match rule {
        TextRule::NoText => is_empty(text),
        TextRule::AnyText => true,
        TextRule::Digits => is_number(text),
        TextRule::Float => {
            if flag == 1 {
                is_float(text)
            } else {
                is_empty(text)
            }
        }
        TextRule::Named => flag == 1 || is_empty(text),
    }
}

// Writes the bytes that a text stands for into d from `at` on: a slice and a place, as in `splice`, by which it
// promises.
pub fn decode_text(text: &[u8], d: &mut [u8], at: usize)
    requires { at + length text.now / 2 ≤ length d.old }
    ensures { d.new ≡ splice d.old at (decoded text.now) }
{
    let (pairs, _) = text.as_chunks::<2>();
    for (i, [high, low]) in pairs.iter().enumerate() {
        d[at + i] = hex_byte(*high, *low);
    }
}

impl Position {
    // The line of a text, whatever its kind. One pass finds the end of the line and judges the form: the first byte
    // that is no digit is the line's byte 10, or the text is none.
    fn text_line(self, s: &[u8]) -> Option<Span>
        requires { self.at ≤ length s.now }
        ensures result_value { got_text s.now self.at result ≡ field "text=" hex wrong_text (λ t. true) s.now self.at }
        ensures text_inside { TextInside s.now result }
    {
        let rest = self.after_key(s, b"text=")?;
        let digits = digits_end(rest)?;
        if digits % 2 == 1 || rest[digits] != b'\n' {
            return None;
        }
        let start = self.at + 5;
        Some(Span {
            start,
            end: start + digits,
        })
    }

    // The text here, of a node whose kind has the rule, and with a flag.
    pub fn text(self, s: &[u8], rule: TextRule, flag: u32) -> Result<Span, Refused>
        requires { self.at ≤ length s.now }
        ensures result_value { got_span decoded s.now result ≡ field "text=" hex wrong_text (text_fits (rule_of rule) flag) s.now self.at }
        ensures formed_in { FormedIn hex decoded (text_fits (rule_of rule) flag) s.now result }
    {
        let malformed = self.refused(Fault::Malformed);
        let text = self.text_line(s).ok_or(malformed)?;
        if !fits(text.of(s), rule, flag) {
            return Err(self.refused(Fault::WrongText));
        }
        Ok(text)
    }
}
