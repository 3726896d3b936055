//! Which units that decide on names a text has, eight units at a time.

ghost use Rattle.std.specs.Prelude.{◌≡◌, ◌<◌, ◌+◌, length, take, drop};
ghost use Rattle.class_checks.specs.NameUnits as spec;

use descriptors::{BRACKET, DOT, SEMICOLON, SLASH};
use std::simd::prelude::*;
use std::sync::ledger::Ledger;
use steps::Steps;

/// How many units are looked at together.
pub const LANES: usize = 8;

pub const LESS: u16 = b'<' as u16;

pub const GREATER: u16 = b'>' as u16;

/// Which units that decide on names a text has.
#[derive(Clone, Copy)]
pub struct NameUnits {
    /// One of `.`, `;` and `[`, which no name has.
    pub stop: bool,
    pub slash: bool,
    /// One of `<` and `>`.
    pub angle: bool,
    /// A slash after a slash, between which a part of the name is empty.
    pub empty_part: bool,
}

// Those of eight units, each with the one before it.
#[inline(always)]
fn name_units_of(before: u16x8, units: u16x8) -> NameUnits
    ensures { result ≡ spec.name_units_of before units }
{
    let slash = units.simd_eq(u16x8::splat(SLASH));
    let stop = units.simd_eq(u16x8::splat(DOT))
        | units.simd_eq(u16x8::splat(SEMICOLON))
        | units.simd_eq(u16x8::splat(BRACKET));
    let angle = units.simd_eq(u16x8::splat(LESS)) | units.simd_eq(u16x8::splat(GREATER));
    let empty_part = before.simd_eq(u16x8::splat(SLASH)) & slash;
    NameUnits {
        stop: stop.any(),
        slash: slash.any(),
        angle: angle.any(),
        empty_part: empty_part.any(),
    }
}

// The same of the eight units behind an index.
#[inline(always)]
fn name_units_behind(units: &[u16], at: usize) -> NameUnits
    requires { at + LANES < length units.now }
    ensures { result ≡ spec.name_units_of
        (take LANES (drop at units.now)) (take LANES (drop (at + 1) units.now)) }
{
    name_units_of(
        u16x8::from_slice(&units[at..]),
        u16x8::from_slice(&units[at + 1..]),
    )
}

#[inline(always)]
fn either(a: NameUnits, b: NameUnits) -> NameUnits
    ensures { result ≡ spec.either a b }
{
    NameUnits {
        stop: a.stop | b.stop,
        slash: a.slash | b.slash,
        angle: a.angle | b.angle,
        empty_part: a.empty_part | b.empty_part,
    }
}

/// Those behind the first unit. The last eight are looked at first, and may be looked at again.
pub fn name_units_behind_first<L: Ledger>(units: &[u16], steps: &mut Steps<L>) -> NameUnits
    requires { LANES < length units.now }
    ensures units { result ≡ spec.name_units_of units.now (drop 1 units.now) }
    ensures cost { steps.new ≡ steps.old + length units.now }
{
    let last = units.len() - (LANES + 1);
    let mut all = name_units_behind(units, last);
    let mut at = 0;
    while at < last {
        all = either(all, name_units_behind(units, at));
        at += LANES;
    }
    steps.spend(units.len());
    all
}
