// A refusal, an answer, and all that a store tells of its module.
ghost use Rattle.std.specs.Prelude.{◌≡◌, ◌+◌, ◌*◌, ◌≤◌, take};
ghost use Rattle.words.specs.Words.{word};

use crate::lines::{print_line, print_list};
use ask::ask_reference;
use kept::scope_count;
use layout::tables::STORE_BYTES;
use rows::{diagnostic_count, expr_count, name_count};
use std::io::{self, Write};
use words::get32;

pub fn print_refusal<W: Write>(out: &mut W, number: u32, place: u32) -> io::Result<()> {
    print_line(out, b"refused=", number)?;
    print_line(out, b"at=", place)
}

// `to=` has the name or the index, the Withs with commas, or nothing.
pub fn print_answer<W: Write>(
    out: &mut W,
    answer: u32,
    value: u32,
    withs: &[u8],
) -> io::Result<()> {
    print_line(out, b"answer=", answer)?;
    // By the number of a reply, as any host reads it: 1 is a definition, 2 a builtin.
    match answer {
        1 | 2 => print_line(out, b"to=", value),
        _ => print_list(out, b"to=", withs),
    }
}

// A word of a reply.
pub fn reply_word(reply: &[u8; 32], at: usize) -> u32
    requires { at + 4 ≤ 32 }
    ensures { result ≡ word reply.now at }
{
    get32(reply, at)
}

// The list that a call left in a buffer: as many numbers as its reply says, and none past the buffer.
pub fn told_list<'a>(buffer: &'a [u8; 16384], reply: &[u8; 32]) -> &'a [u8]
    ensures { result.now ≡ take (4 * word reply.now 16) buffer.now }
{
    let bytes = 4 * reply_word(reply, 16) as usize;
    &buffer[..bytes.min(16384)]
}

// An expression that is no Reference is refused by its asking, and nothing is printed of it.
fn print_reference<W: Write>(
    out: &mut W,
    store: &[u8],
    number: u32,
    buffer: &mut [u8; 16384],
) -> io::Result<()> {
    let mut reply = [0u8; 32];
    if ask_reference(store, number, buffer, &mut reply) != 0 {
        return Ok(());
    }
    print_line(out, b"ref=", number)?;
    print_answer(
        out,
        reply_word(&reply, 8),
        reply_word(&reply, 12),
        told_list(buffer, &reply),
    )
}

// The first expressions of a store, as far as they are References.
fn print_references<W: Write>(out: &mut W, store: &[u8], exprs: u32) -> io::Result<()> {
    // As many bytes as a list of all scopes takes: no list of Withs is longer.
    let mut buffer = [0u8; 16384];
    for number in 0..exprs {
        print_reference(out, store, number, &mut buffer)?;
    }
    Ok(())
}

// The counts of a loaded store, and what each Reference means.
pub fn print_module<W: Write>(out: &mut W, store: &[u8]) -> io::Result<()> {
    if store.len() < STORE_BYTES {
        return Ok(());
    }
    let exprs = expr_count(store);
    print_line(out, b"exprs=", exprs)?;
    print_line(out, b"names=", name_count(store))?;
    print_line(out, b"scopes=", scope_count(store))?;
    print_line(out, b"dups=", diagnostic_count(store))?;
    print_references(out, store, exprs)
}

// What a load came to: why it was refused, as its reply says, or what the store then tells.
pub fn print_load<W: Write>(
    out: &mut W,
    refused: u32,
    reply: &[u8; 32],
    store: &[u8],
) -> io::Result<()> {
    if refused != 0 {
        return print_refusal(out, refused, reply_word(reply, 4));
    }
    print_module(out, store)
}
