//! Reads a history from its text.

ghost use Rattle.std.specs.Prelude.{◌≡◌, ◌<◌, ◌^◌, List, ℕ, length, IfOk, Err};
ghost use Rattle.items.specs.Memory.{OkUnless};
ghost use Rattle.history.specs.declared.entry.Entry.{Entry as OneEntry};
ghost use Rattle.history.specs.declared.error.TraceError.TheVariants as errors;
ghost use Rattle.history.specs.TraceText.{trace_text, AreEntries};
ghost use Rattle.history.specs.FirstBadLine.{IsFirstBadLine};
ghost use Rattle.history.specs.Reading.{TakesEntries};

use crate::entry::Entry;
use crate::error::TraceError;
use crate::line_parser::{entry_at, first_line_at, last_line_at};
use std::alloc::{AllocError, Global};

/// The number of carriers and the history whose text this is.
pub fn read(alloc: Global, text: &[u8]) -> Result<(u32, Vec<Entry>), TraceError>
    requires { length text.now < 2 ^ 32 }
    // The text is that of what it returns.
    ensures found { IfOk result (λ r. text.now ≡ trace_text r.0 r.1.items) }
    ensures in_range { IfOk result (λ r. AreEntries r.1.items) }
    // The text of a history is read as this history.
    ensures only { (carriers : ℕ) (entries : List OneEntry) → carriers < 2 ^ 32 → AreEntries entries
        → text.now ≡ trace_text carriers entries
        → OkUnless result errors.NoMemory (λ r. (r.0 ≡ carriers) × (r.1.items ≡ entries)) }
    // A refusal names the first line that can't be where it is.
    ensures bad { (line : ℕ) → result ≡ Err (errors.Bad line) → IsFirstBadLine text.now line }
{
    let Some((carriers, lines)) = first_line_at(text) else {
        return Err(TraceError::Bad { line: 1 });
    };
    let (entries, rest) = entries_at(alloc, lines)?;
    let count = entries.len();
    let Some(behind) = last_line_at(count, rest) else {
        return Err(TraceError::Bad {
            line: count as u32 + 2,
        });
    };
    if !behind.is_empty() {
        return Err(TraceError::Bad {
            line: count as u32 + 3,
        });
    }
    Ok((carriers, entries))
}

// The entries whose lines are at the front, and the bytes after them.
fn entries_at(alloc: Global, lines: &[u8]) -> Result<(Vec<Entry>, &[u8]), AllocError>
    ensures { IfOk result (λ r. TakesEntries lines.now r.0.items r.1.now) }
{
    let mut entries = Vec::new(alloc);
    let mut rest = lines;
    while let Some((entry, behind)) = entry_at(rest) {
        entries.push(entry)?;
        rest = behind;
    }
    Ok((entries, rest))
}
