// Runs a list of vectors from standard input: sheets, each with a title and a list of calls, that are loaded, asked and
// changed one after the other in one store. What comes of each is printed, and is held against what the oracle wrote
// beside the list (`oracle vectors`).
//
// A vector is a line with its title; `sheet=`, the number of the sheet's bytes, and these; `calls=`, their number, and
// these. A call is four lines: `call=` (0 asks about a Reference, 1 about a name, 2 changes a Reference, 3 a name),
// `number=`, `lent=` (the bytes of the buffer, or of the new text) and `reply=` (the bytes of the reply). A change has
// a line before the last, `moved=` (the bytes of the buffer for what it moves), and behind them its text and a line
// end. The first line of the list says what wrote it. It and the titles are read through the Reader, since they are
// lines of no form; a line with a number is judged as it is read.
#![tactic(auto)]

ghost use Rattle.std.specs.Prelude.{◌≡◌, ◌≤◌, length, IfOk, IfSome};

use ask::{ask_name, ask_reference};
use change::{change_name, change_reference};
use layout::tables::STORE_BYTES;
use load::load;
use printing::{
    print_answer, print_list, print_load, print_module, print_refusal, reply_word, told_list,
};
use reader::after_first_line;
use sheet::{Fault, Position};
use std::io::{self, Read, Write};

// The list may have so many bytes.
const LIST_BYTES: usize = 524288;

// What a call asks or changes, by the number that the list has for it.
#[derive(Clone, Copy)]
enum Call {
    AskReference,
    AskName,
    ChangeReference,
    ChangeName,
}

impl Call {
    // No `TryFrom`: of another number there is nothing else to tell.
    fn of(number: u32) -> Option<Call> {
        match number {
            0 => Some(Call::AskReference),
            1 => Some(Call::AskName),
            2 => Some(Call::ChangeReference),
            3 => Some(Call::ChangeName),
            _ => None,
        }
    }
}

// A call as the list has it: the bytes lent for its list and for its reply, and the text that a change sets.
#[derive(Clone, Copy)]
struct Given<'a> {
    call: Call,
    number: u32,
    text: &'a [u8],
    lent: u32,
    told: u32,
}

// The number of the first line, and what follows the line; it has to have the key and a number from 0 to `most`.
fn first_number<'a>(list: &'a [u8], key: &[u8], most: u32) -> Option<(u32, &'a [u8])>
    ensures { IfSome result (λ p. length p.1.now ≤ length list.now) }
{
    let line = Position::first().number(list, key, Fault::WrongCount, 0, most);
    let (value, next) = line.ok()?;
    let rest = list.get(next.at..)?;
    Some((value, rest))
}

// A change, from its line `moved=` on, and what follows it; its text stands behind its lines, with a line end.
fn first_change<'a>(
    list: &'a [u8],
    call: Call,
    number: u32,
    bytes: u32,
) -> Option<(Given<'a>, &'a [u8])>
    ensures { IfSome result (λ p. length p.1.now ≤ length list.now) }
{
    let (lent, list) = first_number(list, b"moved=", 16384)?;
    let (told, list) = first_number(list, b"reply=", 32)?;
    let (text, list) = list.split_at_checked(bytes as usize)?;
    let rest = list.get(1..)?;
    let given = Given {
        call,
        number,
        text,
        lent,
        told,
    };
    Some((given, rest))
}

// An asking, from its line `reply=` on, and what follows it.
fn first_asking<'a>(
    list: &'a [u8],
    call: Call,
    number: u32,
    lent: u32,
) -> Option<(Given<'a>, &'a [u8])>
    ensures { IfSome result (λ p. length p.1.now ≤ length list.now) }
{
    let (told, rest) = first_number(list, b"reply=", 32)?;
    let given = Given {
        call,
        number,
        text: b"",
        lent,
        told,
    };
    Some((given, rest))
}

// The first call of the list, and what follows it.
fn first_call<'a>(list: &'a [u8]) -> Option<(Given<'a>, &'a [u8])>
    ensures { IfSome result (λ p. length p.1.now ≤ length list.now) }
{
    let (kind, list) = first_number(list, b"call=", 3)?;
    let call = Call::of(kind)?;
    let (number, list) = first_number(list, b"number=", 4294967295)?;
    let (bytes, list) = first_number(list, b"lent=", 16384)?;
    match call {
        Call::AskReference | Call::AskName => first_asking(list, call, number, bytes),
        Call::ChangeReference | Call::ChangeName => first_change(list, call, number, bytes),
    }
}

// Where the list does not go on as it should, the rest of it is left out.
fn broken<'a, W: Write>(out: &mut W) -> io::Result<&'a [u8]>
    ensures { IfOk result (λ rest. length rest.now ≡ 0) }
{
    out.write_all(b"the list has another form here\n")?;
    Ok(b"")
}

// What is lent is never more than there is.
fn within(bytes: u32, most: usize) -> usize
    ensures { result ≤ most }
{
    most.min(bytes as usize)
}

// Makes the call; gives 0, or the number of why it is refused.
fn make(
    given: Given<'_>,
    store: &mut [u8; STORE_BYTES],
    buffer: &mut [u8],
    reply: &mut [u8],
) -> u32 {
    match given.call {
        Call::AskReference => ask_reference(store, given.number, buffer, reply),
        Call::AskName => ask_name(store, given.number, buffer, reply),
        Call::ChangeReference => change_reference(store, given.number, given.text, buffer, reply),
        Call::ChangeName => change_name(store, given.number, given.text, buffer, reply),
    }
}

// What a call told: an answer, the references of a name or the References that a change moved. As many as there can be
// would not fit into the buffer, but no vector has so many.
fn print_told<W: Write>(
    out: &mut W,
    call: Call,
    buffer: &[u8; 16384],
    reply: &[u8; 32],
) -> io::Result<()> {
    let list = told_list(buffer, reply);
    match call {
        Call::AskReference => {
            let answer = reply_word(reply, 8);
            print_answer(out, answer, reply_word(reply, 12), list)
        }
        Call::AskName => print_list(out, b"list=", list),
        Call::ChangeReference | Call::ChangeName => print_list(out, b"moved=", list),
    }
}

// One call, made and told; a refused one tells why. A reply that was too short has the place 0, as it was lent.
fn run_call<W: Write>(
    out: &mut W,
    given: Given<'_>,
    store: &mut [u8; STORE_BYTES],
) -> io::Result<()> {
    let mut buffer = [0u8; 16384];
    let mut reply = [0u8; 32];
    let lent = within(given.lent, 16384);
    let told = within(given.told, 32);
    let refused = make(given, store, &mut buffer[..lent], &mut reply[..told]);
    if refused != 0 {
        return print_refusal(out, refused, reply_word(&reply, 4));
    }
    print_told(out, given.call, &buffer, &reply)
}

// Runs the first call of the list; gives what follows it.
fn run_first<'a, W: Write>(
    out: &mut W,
    list: &'a [u8],
    store: &mut [u8; STORE_BYTES],
) -> io::Result<&'a [u8]>
    ensures { IfOk result (λ rest. length rest.now ≤ length list.now) }
{
    let Some((given, rest)) = first_call(list) else {
        return broken(out);
    };
    run_call(out, given, store)?;
    Ok(rest)
}

// All calls of a vector, and what the store tells after them; gives what follows the last.
fn run_calls<'a, W: Write>(
    out: &mut W,
    list: &'a [u8],
    count: u32,
    store: &mut [u8; STORE_BYTES],
) -> io::Result<&'a [u8]>
    ensures { IfOk result (λ rest. length rest.now ≤ length list.now) }
{
    let mut rest = list;
    for _ in 0..count {
        rest = run_first(out, rest, store)?;
    }
    if 0 < count {
        print_module(out, store)?;
    }
    Ok(rest)
}

// refsheet has these lines too: printing, which both use, writes to nothing that is lent.
fn load_and_show<W: Write>(
    out: &mut W,
    sheet: &[u8],
    store: &mut [u8; STORE_BYTES],
) -> io::Result<()> {
    let mut reply = [0u8; 32];
    let refused = load(sheet, store, &mut reply);
    print_load(out, refused, &reply, store)
}

// The first sheet of the list, from its line `sheet=` on, and what follows it.
fn first_sheet<'a>(list: &'a [u8]) -> Option<(&'a [u8], &'a [u8])>
    ensures { IfSome result (λ p. length p.1.now ≤ length list.now) }
{
    let (bytes, list) = first_number(list, b"sheet=", 65536)?;
    list.split_at_checked(bytes as usize)
}

// The sheet and the calls of a vector, from the line `sheet=` on; gives what follows them.
fn run_sheet<'a, W: Write>(
    out: &mut W,
    list: &'a [u8],
    store: &mut [u8; STORE_BYTES],
) -> io::Result<&'a [u8]>
    ensures { IfOk result (λ rest. length rest.now ≤ length list.now) }
{
    let Some((sheet, list)) = first_sheet(list) else {
        return broken(out);
    };
    load_and_show(out, sheet, store)?;
    let Some((count, calls)) = first_number(list, b"calls=", 4096) else {
        return broken(out);
    };
    run_calls(out, calls, count, store)
}

// Vectors one after the other, until the list ends or one has another form.
fn run_list<W: Write>(out: &mut W, list: &[u8], store: &mut [u8; STORE_BYTES]) -> io::Result<()> {
    let mut rest = &list[after_first_line(list)..];
    // No `for`: each vector says by its own lines where the next one begins.
    while !rest.is_empty() {
        let (title, vector) = rest.split_at(after_first_line(rest));
        if title.is_empty() {
            return Ok(());
        }
        out.write_all(title)?;
        rest = run_sheet(out, vector, store)?;
    }
    Ok(())
}

// Reads until the buffer is full or the input ends, and gives how many bytes were read.
fn read_list<R: Read>(input: &mut R, list: &mut [u8]) -> io::Result<usize>
    ensures { IfOk result (λ n. n ≤ length list.new) }
{
    let most = list.len();
    let n = io::copy(&mut input.take(most as u64), &mut &mut list[..])?;
    Ok(most.min(n as usize))
}

// The vectors of the list that is read into a buffer; what does not fit into it is left out.
fn run_input<R: Read, W: Write>(
    input: &mut R,
    out: &mut W,
    list: &mut [u8; LIST_BYTES],
    store: &mut [u8; STORE_BYTES],
) -> io::Result<()> {
    let n = read_list(input, list)?;
    run_list(out, &list[..n], store)
}

fn main(rt: HostRuntime) -> io::Result<()> {
    let mut store = [0u8; STORE_BYTES];
    let mut list = [0u8; LIST_BYTES];
    run_input(
        &mut rt.reader(),
        &mut io::writer(&rt),
        &mut list,
        &mut store,
    )
}
