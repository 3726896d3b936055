//! The operands of switches.

ghost use Rattle.std.specs.Prelude.{◌≡◌, IfOk, OnOk};
ghost use Rattle.asm_listing.specs.Numbers.{Gives, GoesOn, Reads, repeat};
ghost use Rattle.asm_listing.specs.Switches as spec;

use crate::numbers::{s4_at, skip};
use crate::operand_reader::Listed;
use crate::words::{label_of, target_of};
use asm_text::{Case, LineError, Name, Operands};
use items::Items;
use std::alloc::{AllocError, Global};

/// Labels, and the pcs that are named with them.
#[derive(Drop)]
struct Targets {
    labels: Items<Name>,
    pcs: Items<u16>,
}

/// Cases, and the pcs that are named with them.
#[derive(Drop)]
struct Cases {
    cases: Items<Case>,
    pcs: Items<u16>,
}

fn padding_of(pc: u16) -> usize
    ensures { result ≡ spec.padding_of pc }
{
    (3 - pc % 4) as usize
}

// A target, four bytes from the pc of the switch.
fn far_target(pc: u16, bytes: &[u8]) -> Result<(u16, &[u8]), LineError>
    ensures { Reads result (spec.far_target pc bytes.now) }
{
    let (offset, rest) = s4_at(bytes)?;
    let target = target_of(pc, offset)?;
    Ok((target, rest))
}

impl Targets {
    // None but the default.
    fn new(alloc: Global, default: u16) -> Result<Self, AllocError>
        ensures { IfOk result (λ t. t ≡ spec.no_targets default) }
    {
        let mut pcs = Items::new(alloc);
        pcs.push(default)?;
        Ok(Targets {
            labels: Items::new(alloc),
            pcs,
        })
    }

    fn push(&mut self, alloc: Global, target: u16) -> Result<(), AllocError>
        ensures { OnOk result (self.new ≡ spec.with_target self.old target) }
    {
        self.labels.push(label_of(alloc, target)?)?;
        self.pcs.push(target)?;
        Ok(())
    }
}

fn one_target<'a>(
    alloc: Global,
    targets: &mut Targets,
    pc: u16,
    bytes: &'a [u8],
) -> Result<&'a [u8], LineError>
    ensures { GoesOn result targets.new (spec.one_target pc targets.old bytes.now) }
{
    let (target, rest) = far_target(pc, bytes)?;
    targets.push(alloc, target)?;
    Ok(rest)
}

// So many targets behind the default.
fn targets_at(
    alloc: Global,
    pc: u16,
    default: u16,
    count: u32,
    bytes: &[u8],
) -> Result<(Targets, &[u8]), LineError>
    ensures { Reads result (repeat (spec.one_target pc) count (spec.no_targets default) bytes.now) }
{
    let mut targets = Targets::new(alloc, default)?;
    let mut rest = bytes;
    for _ in 0..count {
        rest = one_target(alloc, &mut targets, pc, rest)?;
    }
    Ok((targets, rest))
}

// How many values there are from the lowest to the highest.
fn count_of(low: i32, high: i32) -> Result<u32, LineError>
    ensures { Gives result (spec.count_of low high) }
{
    if high < low {
        return Err(LineError::Bad);
    }
    let span = i64::from(high) - i64::from(low);
    if span > 65_535 {
        return Err(LineError::Bad);
    }
    Ok(span.unsigned_abs() as u32 + 1)
}

fn table_of(alloc: Global, low: i32, default: u16, targets: Targets) -> Result<Listed, AllocError>
    ensures { IfOk result (λ listed. listed ≡ spec.table_of low default targets) }
{
    let Targets { labels, pcs } = targets;
    Ok(Listed {
        operands: Operands::Table {
            low,
            labels,
            default: label_of(alloc, default)?,
        },
        targets: pcs,
    })
}

/// The operands of a tableswitch at `pc`.
pub fn table(alloc: Global, pc: u16, bytes: &[u8]) -> Result<(Listed, &[u8]), LineError>
    ensures { Reads result (spec.table pc bytes.now) }
{
    let rest = skip(padding_of(pc), bytes)?;
    let (default, rest) = far_target(pc, rest)?;
    let (low, rest) = s4_at(rest)?;
    let (high, rest) = s4_at(rest)?;
    let count = count_of(low, high)?;
    let (targets, rest) = targets_at(alloc, pc, default, count, rest)?;
    Ok((table_of(alloc, low, default, targets)?, rest))
}

impl Cases {
    // None but the default.
    fn new(alloc: Global, default: u16) -> Result<Self, AllocError>
        ensures { IfOk result (λ c. c ≡ spec.no_cases default) }
    {
        let mut pcs = Items::new(alloc);
        pcs.push(default)?;
        Ok(Cases {
            cases: Items::new(alloc),
            pcs,
        })
    }

    fn push(&mut self, alloc: Global, value: i32, target: u16) -> Result<(), AllocError>
        ensures { OnOk result (self.new ≡ spec.with_case self.old value target) }
    {
        let label = label_of(alloc, target)?;
        self.cases.push(Case { value, label })?;
        self.pcs.push(target)?;
        Ok(())
    }
}

fn one_case<'a>(
    alloc: Global,
    cases: &mut Cases,
    pc: u16,
    bytes: &'a [u8],
) -> Result<&'a [u8], LineError>
    ensures { GoesOn result cases.new (spec.one_case pc cases.old bytes.now) }
{
    let (value, rest) = s4_at(bytes)?;
    let (target, rest) = far_target(pc, rest)?;
    cases.push(alloc, value, target)?;
    Ok(rest)
}

// So many cases behind the default.
fn cases_at(
    alloc: Global,
    pc: u16,
    default: u16,
    count: u32,
    bytes: &[u8],
) -> Result<(Cases, &[u8]), LineError>
    ensures { Reads result (repeat (spec.one_case pc) count (spec.no_cases default) bytes.now) }
{
    let mut cases = Cases::new(alloc, default)?;
    let mut rest = bytes;
    for _ in 0..count {
        rest = one_case(alloc, &mut cases, pc, rest)?;
    }
    Ok((cases, rest))
}

fn case_count(count: i32) -> Result<u32, LineError>
    ensures { Gives result (spec.case_count count) }
{
    if count < 0 {
        return Err(LineError::Bad);
    }
    Ok(count.unsigned_abs())
}

fn lookup_of(alloc: Global, default: u16, cases: Cases) -> Result<Listed, AllocError>
    ensures { IfOk result (λ listed. listed ≡ spec.lookup_of default cases) }
{
    let Cases { cases, pcs } = cases;
    Ok(Listed {
        operands: Operands::Lookup {
            cases,
            default: label_of(alloc, default)?,
        },
        targets: pcs,
    })
}

/// The operands of a lookupswitch at `pc`.
pub fn lookup(alloc: Global, pc: u16, bytes: &[u8]) -> Result<(Listed, &[u8]), LineError>
    ensures { Reads result (spec.lookup pc bytes.now) }
{
    let rest = skip(padding_of(pc), bytes)?;
    let (default, rest) = far_target(pc, rest)?;
    let (count, rest) = s4_at(rest)?;
    let count = case_count(count)?;
    let (cases, rest) = cases_at(alloc, pc, default, count, rest)?;
    Ok((lookup_of(alloc, default, cases)?, rest))
}
