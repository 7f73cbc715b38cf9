// Document 01's program refsheet (docs/RULES.md, "Followed examples"): reads a sheet of at most 65,536 bytes from
// standard input, loads it, and prints how many expressions, names, scopes and duplicate keys it has and what each
// Reference means; or why it is refused.
#![tactic(auto)]

use layout::tables::STORE_BYTES;
use load::load;
use printing::{print_load, print_refusal};
use refusals::Refusal;
use std::io::{self, Read, Write};

fn show<W: Write>(out: &mut W, sheet: &[u8], store: &mut [u8; STORE_BYTES]) -> io::Result<()> {
    let mut reply = [0u8; 32];
    let refused = load(sheet, store, &mut reply);
    print_load(out, refused, &reply, store)
}

fn main(rt: HostRuntime) -> io::Result<()> {
    let mut out = io::writer(&rt);
    let mut store = [0u8; STORE_BYTES];
    // One byte more than a sheet may have here, so that a longer one shows.
    let mut text = [0u8; 65537];
    let n = io::copy(&mut rt.reader().take(65537), &mut &mut text[..])?;
    if 65536 < n {
        return print_refusal(&mut out, Refusal::SheetTooLong.number(), 0);
    }
    show(&mut out, &text[..n as usize], &mut store)
}
