//! Modified UTF-8 (JVMS 4.4.7).

ghost use Rattle.std.specs.Prelude.{◌≡◌, ◌++◌, length, OnOk};
ghost use Rattle.jvm_utf8.specs.Text.{text};
ghost use Rattle.class_grammar.specs.Layout as layout;
ghost use Rattle.class_grammar.specs.Ranges.{IsU2};

use crate::numbers::{fill_u2, u2};
use items::NoMemory;
use jvm_utf8::append;

/// A text after the number of its bytes (JVMS 4.4.7).
pub fn string(out: &mut Vec<u8>, units: &[u16]) -> Result<(), NoMemory>
    requires { IsU2 (length (text units.now)) }
    ensures { OnOk result (out.new.items ≡ out.old.items ++ layout.string (text units.now)) }
{
    let start = out.len();
    u2(out, 0)?;
    append(out, units)?;
    fill_u2(out, start);
    Ok(())
}
