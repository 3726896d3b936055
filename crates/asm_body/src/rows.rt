//! The exception table of a body (JVMS 4.7.3).

ghost use Rattle.std.specs.Prelude.{◌≡◌, [], Some, None};
ghost use Rattle.asm_code.specs.Places.{place_of};
ghost use Rattle.asm_body.specs.Bodies as spec;
ghost use Rattle.asm_body.specs.Bodies.{AnswersBy};

use crate::error::BodyError;
use crate::placed::PlacedRow;
use asm_code::Labels;
use class_model::Row;
use items::Items;
use std::alloc::Global;

// Whether the row covers some code of this size, and its handler is inside.
fn is_range(size: u32, row: Row) -> bool
    ensures { result ≡ spec.is_range size row }
{
    row.start < row.end && u32::from(row.end) <= size && u32::from(row.handler) < size
}

fn in_range(size: u32, row: Row) -> Option<Row>
    ensures { result ≡ spec.in_range size row }
{
    if is_range(size, row) { Some(row) } else { None }
}

fn row_of(labels: &Labels, size: u32, placed: &PlacedRow) -> Option<Row>
    ensures { result ≡ spec.row_of (place_of labels.now) size placed.now }
{
    let start = labels.place(&placed.from)?;
    let end = labels.place(&placed.to)?;
    let handler = labels.place(&placed.handler)?;
    in_range(
        size,
        Row {
            start,
            end,
            handler,
            catch_type: placed.catch_type,
        },
    )
}

/// The rows of a code of `size` bytes.
pub fn rows_of(
    alloc: Global,
    labels: &Labels,
    size: u32,
    rows: &[PlacedRow],
) -> Result<Items<Row>, BodyError>
    ensures { AnswersBy (λ table. table) result
        (spec.put_rows (place_of labels.now) size rows.now []) }
{
    let mut table = Items::new(alloc);
    for placed in rows {
        match row_of(labels, size, placed) {
            Some(row) => table.push(row)?,
            None => return Err(BodyError::Bad { line: placed.line }),
        }
    }
    Ok(table)
}
