//! The text of a history.

ghost use Rattle.std.specs.Prelude.{◌≡◌, ◌++◌, ◌<◌, length, codes, IfOk, OnOk};
ghost use Rattle.std.specs.List.{flat_map};
ghost use Rattle.history.specs.TraceText.{field, pick_field, fields, line, trace_text, newline};

use crate::entry::{Entry, What};
use items::NoMemory;
use itoa::{Buffer, Integer};
use std::alloc::{AllocError, Global};

/// The text of a history with its number of carriers.
pub fn print(alloc: Global, carriers: u32, history: &[Entry]) -> Result<Vec<u8>, NoMemory>
    ensures { IfOk result (λ v. v.items ≡ trace_text carriers history.now) }
{
    let mut text = Vec::new(alloc);
    text.extend_from_slice(b"jvt-trace carriers")?;
    print_field(&mut text, carriers)?;
    text.extend_from_slice(b"\n")?;
    print_lines(&mut text, history)?;
    text.extend_from_slice(b"end")?;
    print_field(&mut text, history.len())?;
    text.extend_from_slice(b"\n")?;
    Ok(text)
}

fn print_lines(text: &mut Vec<u8>, history: &[Entry]) -> Result<(), AllocError>
    ensures { OnOk result (text.new.items ≡ text.old.items ++ flat_map line history.now) }
{
    for entry in history {
        print_line(text, *entry)?;
    }
    Ok(())
}

fn print_line(text: &mut Vec<u8>, entry: Entry) -> Result<(), AllocError>
    ensures { OnOk result (text.new.items ≡ text.old.items ++ line entry) }
{
    let letter = match entry.what {
        What::Mount(_) => b"M",
        What::Unmount(_) => b"U",
        What::Step { .. } => b"S",
        What::Clock(_) => b"C",
    };
    text.extend_from_slice(letter)?;
    print_field(text, entry.carrier)?;
    print_fields(text, entry.what)?;
    text.extend_from_slice(b"\n")
}

// What comes after the carrier.
fn print_fields(text: &mut Vec<u8>, what: What) -> Result<(), AllocError>
    ensures { OnOk result (text.new.items ≡ text.old.items ++ fields what) }
{
    match what {
        What::Mount(thread) | What::Unmount(thread) => print_field(text, thread),
        What::Step {
            thread,
            steps,
            pick,
        } => {
            print_field(text, thread)?;
            print_field(text, steps)?;
            match pick {
                Some(thread) => print_field(text, thread),
                None => text.extend_from_slice(b" -"),
            }
        }
        What::Clock(now) => print_field(text, now),
    }
}

// A space and a number.
fn print_field<I: Integer>(text: &mut Vec<u8>, number: I) -> Result<(), AllocError>
    ensures { OnOk result (text.new.items ≡ text.old.items ++ (codes " " ++ I.text number)) }
{
    let mut buffer = Buffer::new();
    text.extend_from_slice(b" ")?;
    text.extend_from_slice(buffer.format(number).as_bytes())
}
