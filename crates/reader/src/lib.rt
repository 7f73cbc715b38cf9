// A reader that holds a sheet and the place of its next line.
//
// Document 01 (docs/RULES.md, "Shapes, sizes and forms"): "then a reader that holds the sheet and its position is
// added". The sheet is lent to the reader once, so whoever reads on hands over the reader alone, and cannot mix up the
// places of two sheets. Its functions are few and thin: the work is done by `line_after`, which has a slice and a number,
// and others call `after_first_line`, which has a slice.
#![tactic(auto)]

ghost use Rattle.std.specs.Prelude.{◌≡◌, ◌≤◌, length, take};
ghost use Rattle.reader.specs.Reading.{after_line};

use sheet::Position;

#[derive(Clone, Copy)]
pub struct Reader<'a> {
    pub sheet: &'a [u8],
    // where the next line starts
    pub at: usize,
}

// Where a reader starts: at a sheet's first byte.
const FIRST: usize = 0;

// Where the line after the one at a place starts; the place itself where no line ends. What is left from the place on
// is read by the line reader of `sheet` as a sheet of its own, so that no position is put together here; with the empty
// key, since any line is meant. Beyond the end there is nothing left to cut off, so a place there is answered before.
pub fn line_after(s: &[u8], at: usize) -> usize
    ensures { result ≡ after_line s.now at }
{
    if s.len() < at {
        return at;
    }
    let rest = &s[at..];
    let first = Position::first();
    match first.line(rest, b"") {
        Some(v) => at + v.after().at,
        None => at,
    }
}

// A reader before the first line of a sheet.
pub fn start<'a>(sheet: &'a [u8]) -> Reader<'a>
    ensures { (result.sheet ≡ sheet.entry) × (result.at ≡ 0) }
{
    Reader { sheet, at: FIRST }
}

// Reads the next line, and hands the moved reader back. The line lies between the two places, without its byte 10.
// Where no line ends the reader stays.
pub fn next_line<'a>(r: Reader<'a>) -> Reader<'a>
    ensures { (result.sheet ≡ r.entry.sheet) × (result.at ≡ after_line r.entry.sheet.now r.entry.at) }
{
    let at = line_after(r.sheet, r.at);
    Reader { sheet: r.sheet, at }
}

// Where the line after the first one starts. The parameter is a plain slice. The place lies
// inside of the sheet: the second part of that follows from the first, and both are said, since they are what a
// caller's `&sheet[..n]` asks.
pub fn after_first_line(sheet: &[u8]) -> usize
    ensures value { result ≡ after_line sheet.now 0 }
    ensures upper_bound { (result ≤ length sheet.now) × (result ≡ length (take result sheet.now)) }
{
    let r = next_line(start(sheet));
    r.at
}
