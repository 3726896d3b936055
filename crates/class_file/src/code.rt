//! A Code attribute (JVMS 4.7.3).

ghost use Rattle.std.specs.Prelude.{◌≡◌, ◌≤◌, ◌+◌, ◌*◌, false, length, IfOk};
ghost use Rattle.byte_reader.specs.Reader.{Reads, ReadsBytes, both};
ghost use Rattle.class_file.specs.Numbers.{sized_value_at, table_at};
ghost use Rattle.class_file.specs.Attributes.{extra_at, next_extra, extras_at, row_at, rows_at, code_bytes_at, code_at};

use crate::bodies::body_of;
use crate::names::{is_stack_map_name, name_of};
use crate::numbers::{bytes_of, pair_of, sized_bytes_of, u2_of, u4_of};
use byte_reader::Stop;
use class_grammar::ClassWhy;
use class_model::{CodeAttribute, CodeBody, CodeExtra, Const, Row};
use items::Items;
use shared_slices::SharedVec;
use std::alloc::Global;
use std::sync::ledger::Ledger;
use steps::Steps;

/// The greatest length of code, in bytes (JVMS 4.7.3).
const MOST_CODE: u32 = 0xffff;

// An attribute of a Code. `seen` says that there is a StackMapTable before it (JVMS 4.7.4).
#[tactic(auto, unfolding(crate::specs::Attributes::extra_at))]
fn extra_of<'a, L: Ledger>(
    alloc: Global,
    pool: &[Const],
    tail: &SharedVec<u8>,
    seen: bool,
    bytes: &'a [u8],
    steps: &mut Steps<L>,
) -> Result<(CodeAttribute, &'a [u8]), Stop<ClassWhy>>
    ensures read { Reads result (extra_at pool.now seen bytes.now) }
    ensures cost { steps.new ≤ steps.old + 3 * length bytes.now + 7 }
    ensures rest { IfOk result (λ x.
        steps.new + 3 * length x.1.now ≤ steps.old + 3 * length bytes.now) }
{
    let (name, rest) = name_of(pool, bytes)?;
    let is_map = is_stack_map_name(name.text, steps);
    if is_map && seen {
        return Err(Stop::at(bytes, ClassWhy::Duplicate));
    }
    let (body, rest) = sized_bytes_of(rest)?;
    let body = body_of(alloc, tail, body, rest, steps)?;
    let body = if is_map {
        CodeExtra::StackMap(body)
    } else {
        CodeExtra::Other(body)
    };
    let name = name.index;
    Ok((CodeAttribute { name, body }, rest))
}

// Whether there is a StackMapTable up to this attribute.
fn is_map_seen(seen: bool, extra: &CodeAttribute) -> bool
    ensures { result ≡ next_extra seen extra.now }
{
    seen || matches!(extra.body, CodeExtra::StackMap(_))
}

// That many attributes of a Code.
fn extras_of<'a, L: Ledger>(
    alloc: Global,
    pool: &[Const],
    tail: &SharedVec<u8>,
    count: u16,
    bytes: &'a [u8],
    steps: &mut Steps<L>,
) -> Result<(Items<CodeAttribute>, &'a [u8]), Stop<ClassWhy>>
    ensures read { Reads result (extras_at pool.now false count bytes.now) }
    ensures cost { steps.new ≤ steps.old + 3 * length bytes.now + 7 }
    ensures rest { IfOk result (λ x.
        steps.new + 3 * length x.1.now ≤ steps.old + 3 * length bytes.now) }
{
    let most = usize::from(count).min(bytes.len() / 6);
    let mut extras = Vec::with_capacity(alloc, most)?;
    let mut rest = bytes;
    let mut seen = false;
    for _ in 0..count {
        let (extra, after) = extra_of(alloc, pool, tail, seen, rest, steps)?;
        seen = is_map_seen(seen, &extra);
        extras.push(extra)?;
        rest = after;
    }
    Ok((Items::from(extras), rest))
}

// A row of the exception table.
#[tactic(auto, unfolding(crate::specs::Attributes::row_at))]
fn row_of(bytes: &[u8]) -> Result<(Row, &[u8]), Stop<ClassWhy>>
    ensures read { Reads result (row_at bytes.now) }
    ensures size { IfOk result (λ x. length x.1.now + 8 ≡ length bytes.now) }
{
    let ((start, end), rest) = pair_of(bytes)?;
    let ((handler, catch_type), rest) = pair_of(rest)?;
    let row = Row {
        start,
        end,
        handler,
        catch_type,
    };
    Ok((row, rest))
}

// That many rows of the exception table.
fn rows_of(alloc: Global, count: u16, bytes: &[u8]) -> Result<(Items<Row>, &[u8]), Stop<ClassWhy>>
    ensures read { Reads result (rows_at count bytes.now) }
    ensures size { IfOk result (λ x. length x.1.now ≤ length bytes.now) }
{
    let most = usize::from(count).min(bytes.len() / 8);
    let mut rows = Vec::with_capacity(alloc, most)?;
    let mut rest = bytes;
    for _ in 0..count {
        let (row, after) = row_of(rest)?;
        rows.push(row)?;
        rest = after;
    }
    Ok((Items::from(rows), rest))
}

// The bytes of the code after their number.
#[tactic(auto, unfolding(crate::specs::Attributes::code_bytes_at))]
fn code_bytes_of(bytes: &[u8]) -> Result<(&[u8], &[u8]), Stop<ClassWhy>>
    ensures read { ReadsBytes result (code_bytes_at bytes.now) }
    ensures size { IfOk result (λ x. length x.0.now + length x.1.now + 4 ≡ length bytes.now) }
{
    let (count, rest) = u4_of(bytes)?;
    if count < 1 || MOST_CODE < count {
        return Err(Stop::at(bytes, ClassWhy::Length));
    }
    bytes_of(count as usize, rest)
}

// The exception table and the attributes of a Code, each after its number.
fn tables_of<'a, L: Ledger>(
    alloc: Global,
    pool: &[Const],
    tail: &SharedVec<u8>,
    bytes: &'a [u8],
    steps: &mut Steps<L>,
) -> Result<((Items<Row>, Items<CodeAttribute>), &'a [u8]), Stop<ClassWhy>>
    ensures read { Reads result
        (both (table_at rows_at) (table_at (extras_at pool.now false)) bytes.now) }
    ensures cost { steps.new ≤ steps.old + 3 * length bytes.now + 7 }
    ensures rest { IfOk result (λ x.
        steps.new + 3 * length x.1.now ≤ steps.old + 3 * length bytes.now) }
{
    let (row_count, rest) = u2_of(bytes)?;
    let (rows, rest) = rows_of(alloc, row_count, rest)?;
    let (extra_count, rest) = u2_of(rest)?;
    let (extras, rest) = extras_of(alloc, pool, tail, extra_count, rest, steps)?;
    Ok(((rows, extras), rest))
}

// A Code after its length.
#[tactic(auto, unfolding(crate::specs::Attributes::code_at))]
fn code_of<'a, L: Ledger>(
    alloc: Global,
    pool: &[Const],
    tail: &SharedVec<u8>,
    bytes: &'a [u8],
    steps: &mut Steps<L>,
) -> Result<(CodeBody, &'a [u8]), Stop<ClassWhy>>
    ensures read { Reads result (code_at pool.now bytes.now) }
    ensures cost { steps.new ≤ steps.old + 3 * length bytes.now + 7 }
    ensures rest { IfOk result (λ x.
        steps.new + 3 * length x.1.now ≤ steps.old + 3 * length bytes.now) }
{
    let ((max_stack, max_locals), rest) = pair_of(bytes)?;
    let (code, behind) = code_bytes_of(rest)?;
    let ((rows, attributes), rest) = tables_of(alloc, pool, tail, behind, steps)?;
    let code = body_of(alloc, tail, code, behind, steps)?;
    let body = CodeBody {
        max_stack,
        max_locals,
        code,
        rows,
        attributes,
    };
    Ok((body, rest))
}

/// A length in four bytes, and a Code of that length (JVMS 4.7.3). The length leaves twelve steps for the attribute's name.
pub fn sized_code_of<'a, L: Ledger>(
    alloc: Global,
    pool: &[Const],
    tail: &SharedVec<u8>,
    bytes: &'a [u8],
    steps: &mut Steps<L>,
) -> Result<(CodeBody, &'a [u8]), Stop<ClassWhy>>
    ensures read { Reads result (sized_value_at (code_at pool.now) bytes.now) }
    ensures cost { steps.new ≤ steps.old + 3 * length bytes.now }
    ensures rest { IfOk result (λ x.
        steps.new + 12 + 3 * length x.1.now ≤ steps.old + 3 * length bytes.now) }
{
    let (size, front) = u4_of(bytes)?;
    let (code, rest) = code_of(alloc, pool, tail, front, steps)?;
    if front.len().saturating_sub(rest.len()) != size as usize {
        return Err(Stop::at(bytes, ClassWhy::Length));
    }
    Ok((code, rest))
}
