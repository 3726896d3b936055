//! The code of methods (JVMS 4.7.3).

ghost use Rattle.std.specs.Prelude.{◌≡◌, length};
ghost use Rattle.class_grammar.specs.Layout.{code_extra};
ghost use Rattle.std.specs.List.{flat_map};
ghost use Rattle.class_grammar.specs.Checks.{left_after, row_items, extra_items, code_items};

use crate::pool::{Pool, unless};
use crate::sizes::check_numbers;
use class_grammar::{ClassFault, ClassWhy};
use class_model::{CodeAttribute, CodeBody, CodeExtra, Row};

/// Goes over a code.
#[tactic(auto, using(crate::proofs::ItemLaws::left_after_append))]
pub fn check_code(pool: &Pool, left: usize, body: &CodeBody) -> Result<usize, ClassFault>
    ensures { result ≡ left_after left (code_items pool.now body.now) }
{
    let size = body.code.len();
    let left = left
        .saturating_sub(8)
        .saturating_sub(size)
        .saturating_sub(2);
    let left = check_rows(pool, left, size, &body.rows)?;
    Ok(skip_extras(left.saturating_sub(2), &body.attributes))
}

// The exception table of a code of this size.
fn check_rows(pool: &Pool, left: usize, size: usize, table: &[Row]) -> Result<usize, ClassFault>
    ensures { result ≡ left_after left (flat_map (row_items pool.now size) table.now) }
{
    let mut left = left;
    for row in table {
        left = check_row(pool, left, size, row)?;
    }
    Ok(left)
}

fn check_row(pool: &Pool, left: usize, size: usize, row: &Row) -> Result<usize, ClassFault>
    ensures { result ≡ left_after left (row_items pool.now size row.now) }
{
    let end = usize::from(row.end);
    let handler = usize::from(row.handler);
    check_numbers(
        left,
        &[
            unless(row.start < row.end, ClassWhy::Range),
            unless(end <= size, ClassWhy::Range),
            unless(handler < size, ClassWhy::Range),
            pool.catch_fault(row.catch_type),
        ],
    )
}

// The attributes of a code, which can't be wrong.
fn skip_extras(left: usize, attributes: &[CodeAttribute]) -> usize
    ensures { left_after left (flat_map extra_items attributes.now) ≡ Ok result }
{
    let mut left = left;
    for attribute in attributes {
        left = left
            .saturating_sub(6)
            .saturating_sub(size_of(&attribute.body));
    }
    left
}

fn size_of(extra: &CodeExtra) -> usize
    ensures { result ≡ length (code_extra extra.now) }
{
    match extra {
        CodeExtra::StackMap(bytes) | CodeExtra::Other(bytes) => bytes.len(),
    }
}
