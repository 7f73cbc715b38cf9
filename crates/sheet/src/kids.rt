// A list of kids: node numbers with commas between them, `-` for an absent one. The form of the whole
// list is judged before any number (2 before 3).
ghost use Rattle.std.specs.Prelude.{◌≡◌, ◌==◌, ◌≤◌, length, position};
ghost use Rattle.std.specs.List.{position_or_len};
ghost use Rattle.std.proofs.Math.Option.{map};
ghost use Rattle.spec.specs.Sheet.{kid, kid_list, all_below, wrong_kid, field};
ghost use Rattle.sheet.specs.Kids.{short_kid, got_kid, short_kids, kid_of, kids_from, RestInside, AfterPart, below, kids_of};
ghost use Rattle.sheet.specs.Verdicts.{verdict_of, got_span, FormedIn};

use crate::decimals::decimal;
use crate::faults::{Fault, Malformed, Refused};
use crate::position::{Position, Span};

fn first_comma(kids: &[u8]) -> Option<usize>
    ensures { result ≡ position (λ b. b == 44) kids.now }
{
    kids.iter().position(|b| *b == b',')
}

// The end of the first part of a list: its comma, or the list's end.
fn part_end(kids: &[u8]) -> usize
    ensures { result ≡ position_or_len (λ b. b == 44) kids.now }
{
    first_comma(kids).unwrap_or(kids.len())
}

// The kid of a part: absent, or its number.
fn kid_in(part: &[u8]) -> Result<Option<u32>, Malformed>
    ensures { got_kid result ≡ map short_kid (kid part.now) }
{
    if part == b"-".as_slice() {
        return Ok(None);
    }
    let n = decimal(part).ok_or(Malformed)?;
    // No kid has a number of more than 32 bits: such a one is told as the largest.
    Ok(Some(u32::try_from(n).unwrap_or(u32::MAX)))
}

// The list after a first part, from that part's end on: what its comma separates is not nothing.
fn after_part<'a>(from: &'a [u8]) -> Result<&'a [u8], Malformed>
    ensures { AfterPart from.now result }
{
    match from {
        [] => Ok(from),
        [_] => Err(Malformed),
        [_, rest @ ..] => Ok(rest),
    }
}

// The first kid of a list, and the list after it; none where the list is empty. A list that was judged right is gone
// through to its end, and never gives `Malformed`.
pub fn next_kid<'a>(kids: &'a [u8]) -> Result<Option<(Option<u32>, &'a [u8])>, Malformed>
    ensures result_value { kids_from result ≡ short_kids kids.now }
    ensures rest_inside { RestInside kids.now result }
{
    if kids.is_empty() {
        return Ok(None);
    }
    let (part, from) = kids.split_at(part_end(kids));
    let rest = after_part(from)?;
    let kid = kid_in(part)?;
    Ok(Some((kid, rest)))
}

// A number has to be below `nodes`; an absent kid has none.
fn is_below(kid: Option<u32>, nodes: u32) -> bool
    ensures { result ≡ below (kid_of kid) nodes }
{
    match kid {
        Some(n) => n < nodes,
        None => true,
    }
}

// The whole list: its form, and whether all its numbers are below `nodes`.
fn judge_kids(kids: &[u8], nodes: u32) -> Result<bool, Malformed>
    ensures { verdict_of result ≡ map (all_below nodes) (kid_list kids.now) }
{
    let mut low = true;
    // `while let` and no `split`, which takes the empty list for one part: `next_kid` says the form of a list for all
    // who go through one.
    let mut left = kids;
    while let Some((kid, rest)) = next_kid(left)? {
        if !is_below(kid, nodes) {
            low = false;
        }
        left = rest;
    }
    Ok(low)
}

impl Position {
    // The list of kids here, each below `nodes`.
    pub fn kids(self, s: &[u8], nodes: u32) -> Result<Span, Refused>
        requires { self.at ≤ length s.now }
        ensures result_value { got_span kids_of s.now result ≡ field "kids=" kid_list wrong_kid (all_below nodes) s.now self.at }
        ensures formed_in { FormedIn kid_list kids_of (all_below nodes) s.now result }
    {
        let malformed = self.refused(Fault::Malformed);
        let list = self.line(s, b"kids=").ok_or(malformed)?;
        match judge_kids(list.of(s), nodes) {
            Ok(true) => Ok(list),
            Ok(false) => Err(self.refused(Fault::WrongKid)),
            Err(Malformed) => Err(malformed),
        }
    }
}
