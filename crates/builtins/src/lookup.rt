// Which of the built-in names a text is.
ghost use Rattle.builtins.specs.Lookup.{Looked};

use crate::table::NAMES;

// The number of the name among them, from 0 on.
pub fn lookup_global_builtin(text: &[u8]) -> Option<u32>
    ensures { Looked result text.now }
{
    let i = NAMES.iter().position(|name| *name == text)?;
    Some(i as u32)
}
