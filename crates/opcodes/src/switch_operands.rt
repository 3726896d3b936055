//! The operands of the two switches.

ghost use Rattle.std.specs.Prelude.{◌≡◌};
ghost use Rattle.byte_reader.specs.Reader.{Reads, map_value};
ghost use Rattle.opcodes.specs.Encoding.{padding_of, count_of, table_switch, table_op, lookup_switch, lookup_op};
ghost use Rattle.opcodes.specs.Operands.{targets_at, high_at, table_at, value_at, match_at, matches_at, lookup_at};

use crate::error::CodeWhy;
use crate::operands::target_of;
use crate::{LookupSwitch, Match, Op, TableSwitch};
use byte_reader::{Stop, bytes_of, i4_of};
use items::{Boxed, Items};
use std::alloc::Global;

// How many bytes pad a switch at `pc`, so that its operands begin at a multiple of 4 (JVMS 6.5).
fn padding_of(pc: u32) -> usize
    ensures { result ≡ padding_of pc }
{
    3 - pc as usize % 4
}

// The operands of tableswitch at `pc` (JVMS 6.5), as an instruction.
#[tactic(auto, using(crate::proofs::SwitchLaws::table_boxed))]
pub fn table_switch_of(alloc: Global, pc: u32, bytes: &[u8]) -> Result<(Op, &[u8]), Stop<CodeWhy>>
    ensures { Reads result (map_value table_op (table_at pc) bytes.now) }
{
    let (table, rest) = table_of(alloc, pc, bytes)?;
    Ok((Op::TableSwitch(Boxed::new(alloc, table)?), rest))
}

#[tactic(auto, unfolding(crate::specs::Operands::table_at))]
fn table_of(alloc: Global, pc: u32, bytes: &[u8]) -> Result<(TableSwitch, &[u8]), Stop<CodeWhy>>
    ensures { Reads result (map_value table_switch (table_at pc) bytes.now) }
{
    let (_, rest) = bytes_of(padding_of(pc), bytes)?;
    let (default, rest) = target_of(pc, rest)?;
    let (low, rest) = i4_of(rest)?;
    let (high, rest) = high_of(low, rest)?;
    let (targets, rest) = targets_of(alloc, pc, count_of(low, high), rest)?;
    let table = TableSwitch {
        default,
        low,
        targets,
    };
    Ok((table, rest))
}

// The highest int of a tableswitch, which is at least the lowest.
fn high_of(low: i32, bytes: &[u8]) -> Result<(i32, &[u8]), Stop<CodeWhy>>
    ensures { Reads result (high_at low bytes.now) }
{
    let (high, rest) = i4_of(bytes)?;
    if high < low {
        return Err(Stop::at(bytes, CodeWhy::Operand));
    }
    Ok((high, rest))
}

// How many targets a tableswitch has.
fn count_of(low: i32, high: i32) -> u64
    ensures { result ≡ count_of low high }
{
    u64::from(high.abs_diff(low)) + 1
}

fn targets_of(
    alloc: Global,
    pc: u32,
    count: u64,
    bytes: &[u8],
) -> Result<(Items<i64>, &[u8]), Stop<CodeWhy>>
    ensures { Reads result (targets_at pc count bytes.now) }
{
    let mut targets = Items::new(alloc);
    let mut rest = bytes;
    for _ in 0..count {
        let (target, after) = target_of(pc, rest)?;
        targets.push(target)?;
        rest = after;
    }
    Ok((targets, rest))
}

// The operands of lookupswitch at `pc` (JVMS 6.5), as an instruction.
#[tactic(auto, using(crate::proofs::SwitchLaws::lookup_boxed))]
pub fn lookup_switch_of(alloc: Global, pc: u32, bytes: &[u8]) -> Result<(Op, &[u8]), Stop<CodeWhy>>
    ensures { Reads result (map_value lookup_op (lookup_at pc) bytes.now) }
{
    let (lookup, rest) = lookup_of(alloc, pc, bytes)?;
    Ok((Op::LookupSwitch(Boxed::new(alloc, lookup)?), rest))
}

#[tactic(auto, unfolding(crate::specs::Operands::lookup_at))]
fn lookup_of(alloc: Global, pc: u32, bytes: &[u8]) -> Result<(LookupSwitch, &[u8]), Stop<CodeWhy>>
    ensures { Reads result (map_value lookup_switch (lookup_at pc) bytes.now) }
{
    let (_, rest) = bytes_of(padding_of(pc), bytes)?;
    let (default, rest) = target_of(pc, rest)?;
    let (count, behind) = i4_of(rest)?;
    if count < 0 {
        return Err(Stop::at(rest, CodeWhy::Operand));
    }
    let (matches, rest) = matches_of(alloc, pc, count.unsigned_abs(), behind)?;
    Ok((LookupSwitch { default, matches }, rest))
}

// A match above `floor`, and its target.
fn match_of(pc: u32, floor: i64, bytes: &[u8]) -> Result<(Match, &[u8]), Stop<CodeWhy>>
    ensures { Reads result (match_at pc floor bytes.now) }
{
    let (value, rest) = value_of(floor, bytes)?;
    let (target, rest) = target_of(pc, rest)?;
    Ok((Match { value, target }, rest))
}

// An int above `floor`.
fn value_of(floor: i64, bytes: &[u8]) -> Result<(i32, &[u8]), Stop<CodeWhy>>
    ensures { Reads result (value_at floor bytes.now) }
{
    let (value, rest) = i4_of(bytes)?;
    if i64::from(value) <= floor {
        return Err(Stop::at(bytes, CodeWhy::Operand));
    }
    Ok((value, rest))
}

// Below each int.
const BELOW_ALL: i64 = -2_147_483_649;

fn matches_of(
    alloc: Global,
    pc: u32,
    count: u32,
    bytes: &[u8],
) -> Result<(Items<Match>, &[u8]), Stop<CodeWhy>>
    ensures { Reads result (matches_at pc BELOW_ALL count bytes.now) }
{
    let mut matches = Items::new(alloc);
    let mut rest = bytes;
    let mut floor = BELOW_ALL;
    for _ in 0..count {
        let (next, after) = match_of(pc, floor, rest)?;
        matches.push(next)?;
        floor = i64::from(next.value);
        rest = after;
    }
    Ok((matches, rest))
}
