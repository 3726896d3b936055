//! The name of the class of main.

ghost use Rattle.std.specs.Prelude.{◌≡◌, IfOk};
ghost use Rattle.std.specs.Char.Escape.{encode_utf16};
ghost use Rattle.program_files.specs.MainClass as spec;

use std::alloc::{AllocError, Global};

/// The name of the class that an argument names, in units of UTF-16: its dots are slashes.
pub fn class_named(alloc: Global, text: &str) -> Result<Vec<u16>, AllocError>
    ensures { IfOk result (λ units. units.items ≡ spec.class_named text.now) }
{
    let mut units = Vec::new(alloc);
    for c in text.chars() {
        let mut pair = [0; 2];
        units.extend_from_slice(with_slash(c).encode_utf16(&mut pair))?;
    }
    Ok(units)
}

fn with_slash(c: char) -> char
    ensures { spec.name_units c ≡ encode_utf16 result }
{
    if c == '.' { '/' } else { c }
}
