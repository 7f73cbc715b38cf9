// A line: its key, and a number or a list of numbers with commas between them.
ghost use Rattle.std.specs.Prelude.{◌+◌, ◌*◌, ◌≤◌, length};

use std::io::{self, Write};
use words::get32;

pub fn print_line<W: Write>(out: &mut W, key: &[u8], value: u32) -> io::Result<()> {
    out.write_all(key)?;
    writeln!(out, "{value}")
}

fn print_item<W: Write>(out: &mut W, list: &[u8], i: usize) -> io::Result<()>
    requires { 4 * i + 4 ≤ length list.now }
{
    if 0 < i {
        out.write_all(b",")?;
    }
    let value = get32(list, 4 * i);
    write!(out, "{value}")
}

// The numbers of a list, each of four bytes.
pub fn print_list<W: Write>(out: &mut W, key: &[u8], list: &[u8]) -> io::Result<()> {
    out.write_all(key)?;
    for i in 0..list.len() / 4 {
        print_item(out, list, i)?;
    }
    out.write_all(b"\n")
}
