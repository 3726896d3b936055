//! The text of an exception table, and the pcs that its rows name (JVMS 4.7.3).

ghost use Rattle.std.specs.Prelude.{◌≡◌, OnOk};
ghost use Rattle.asm_code.specs.Encoding.{Puts};
ghost use Rattle.asm_listing.specs.Numbers.{Gives};
ghost use Rattle.class_listing.specs.Methods as spec;

use asm_listing::{caught_at, label_of};
use asm_text::{Line, LineError, print_line};
use class_model::{Const, Row};
use std::alloc::{AllocError, Global};

fn row_line(alloc: Global, pool: &[Const], row: &Row) -> Result<Line, LineError>
    ensures { Gives result (spec.row_line pool.now row.now) }
{
    Ok(Line::Catch {
        caught: caught_at(alloc, pool, row.catch_type)?,
        from: label_of(alloc, row.start)?,
        to: label_of(alloc, row.end)?,
        using: label_of(alloc, row.handler)?,
    })
}

fn put_row(alloc: Global, text: &mut Vec<u8>, pool: &[Const], row: &Row) -> Result<(), LineError>
    ensures { Puts result text.new.items (spec.with_row pool.now row.now text.old.items) }
{
    let line = row_line(alloc, pool, row)?;
    print_line(text, &line)?;
    Ok(())
}

/// Appends the lines of the rows. `Bad`: one has none.
pub fn put_rows(
    alloc: Global,
    text: &mut Vec<u8>,
    pool: &[Const],
    rows: &[Row],
) -> Result<(), LineError>
    ensures { Puts result text.new.items (spec.with_rows pool.now rows.now text.old.items) }
{
    for row in rows {
        put_row(alloc, text, pool, row)?;
    }
    Ok(())
}

/// Appends the pcs that the rows name.
pub fn name_rows(named: &mut Vec<u16>, rows: &[Row]) -> Result<(), AllocError>
    ensures { OnOk result (named.new.items ≡ spec.named_by named.old.items rows.now) }
{
    for row in rows {
        named.extend_from_slice(&[row.start, row.end, row.handler])?;
    }
    Ok(())
}
