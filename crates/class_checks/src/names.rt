//! Names of fields, methods and classes, in the units of UTF-16 (JVMS 4.2).

ghost use Rattle.std.specs.Prelude.{◌≡◌, ◌<◌, ◌≤◌, ◌+◌, ◌∷◌, [], ◌||◌, codes, false, length};
ghost use Rattle.class_grammar.specs.Text.{same_text, is_one_of};
ghost use Rattle.class_grammar.specs.Names as grammar;
ghost use Rattle.class_checks.specs.Names as spec;
ghost use Rattle.class_checks.specs.NameUnits as units_spec;

use crate::name_units::{GREATER, LANES, LESS, NameUnits, name_units_behind_first};
use class_grammar::{CLINIT_NAME, INIT_NAME, is_same_counted};
use descriptors::{BRACKET, DOT, SEMICOLON, SLASH};
use std::sync::ledger::Ledger;
use steps::Steps;

/// What a text may be the name of.
#[derive(Clone, Copy)]
pub struct Names {
    pub of_field: bool,
    pub of_method: bool,
    /// A class that is no array.
    pub of_class: bool,
}

/// What no name has.
pub const NOTHING: Names = Names {
    of_field: false,
    of_method: false,
    of_class: false,
};

/// Whether a text begins with this unit.
pub fn begins_with(unit: u16, units: &[u16]) -> bool
    ensures { result ≡ grammar.begins_with (unit ∷ []) units.now }
{
    match units {
        [first, ..] => *first == unit,
        [] => false,
    }
}

/// Whether a text ends with a semicolon, as the descriptor of a class does.
pub fn ends_with_semicolon(units: &[u16]) -> bool
    ensures { result ≡ units_spec.ends_with_semicolon units.now }
{
    match units {
        [.., last] => *last == SEMICOLON,
        [] => false,
    }
}

/// What the text may be the name of (JVMS 4.2.1, 4.2.2).
pub fn names_of<L: Ledger>(units: &[u16], steps: &mut Steps<L>) -> Names
    ensures names { result ≡ spec.names_of units.now }
    ensures cost { steps.new ≤ steps.old + length units.now + 8 }
{
    if units.is_empty() {
        return NOTHING;
    }
    let is_initializer = is_initializer(units, steps);
    let names = names_by_units(units, steps);
    Names {
        of_method: is_initializer || names.of_method,
        ..names
    }
}

// The names with angle brackets that a method may have (JVMS 2.9).
fn is_initializer<L: Ledger>(units: &[u16], steps: &mut Steps<L>) -> bool
    ensures test { result ≡ grammar.is_initializer units.now }
    ensures cost { steps.new ≤ steps.old + 8 }
{
    if is_same_counted(units, &INIT_NAME, steps) {
        return true;
    }
    is_same_counted(units, &CLINIT_NAME, steps)
}

/// What the text may be by its units alone.
#[tactic(auto, using(crate::proofs::NamesByUnits::no_name_ends))]
pub fn names_by_units<L: Ledger>(units: &[u16], steps: &mut Steps<L>) -> Names
    ensures names { result ≡ spec.names_by false false false units.now }
    ensures cost { steps.new ≤ steps.old + length units.now }
{
    if ends_with_semicolon(units) {
        return NOTHING;
    }
    if units.len() <= LANES {
        steps.spend(units.len());
        return names_by_unit(units);
    }
    names_by_lanes(units, steps)
}

// The same where there are more units than are looked at together.
#[inline(never)]
fn names_by_lanes<L: Ledger>(units: &[u16], steps: &mut Steps<L>) -> Names
    requires { LANES < length units.now }
    ensures names { result ≡ spec.names_by false false false units.now }
    ensures cost { steps.new ≤ steps.old + length units.now }
{
    let behind = name_units_behind_first(units, steps);
    names_from(units[0], units[units.len() - 1], behind)
}

// The same by the first unit, the last one, and those behind the first.
fn names_from(first: u16, last: u16, behind: NameUnits) -> Names
    ensures { result ≡ units_spec.names_from first last behind }
{
    if is_never_in_a_name(first) || behind.stop {
        return NOTHING;
    }
    let is_slashed = is_slash(first) || behind.slash;
    Names {
        of_field: !is_slashed,
        of_method: !is_slashed && !(is_angle(first) || behind.angle),
        of_class: !(is_slash(first) || behind.empty_part || is_slash(last)),
    }
}

// The same unit by unit.
#[inline(never)]
fn names_by_unit(units: &[u16]) -> Names
    ensures { result ≡ spec.names_by false false false units.now }
{
    let mut slashed = false;
    let mut angled = false;
    let mut begun = false;
    for unit in units {
        if is_in_every_name(*unit) {
            begun = true;
            continue;
        }
        if *unit == SLASH {
            if !begun {
                return NOTHING;
            }
            slashed = true;
            begun = false;
        } else if is_never_in_a_name(*unit) {
            return NOTHING;
        } else {
            angled = angled || is_angle(*unit);
            begun = true;
        }
    }
    Names {
        of_field: !slashed,
        of_method: !slashed && !angled,
        of_class: begun,
    }
}

// Whether the unit is one that every name may have, as letters are.
fn is_in_every_name(unit: u16) -> bool
    ensures { result ≡ spec.is_in_every_name unit }
{
    unit > BRACKET || u16::from(b'A') <= unit && unit <= u16::from(b'Z')
}

// Whether no name has the unit (JVMS 4.2.2).
fn is_never_in_a_name(unit: u16) -> bool
    ensures { result ≡ is_one_of (codes ".;[") unit }
{
    unit == DOT || unit == SEMICOLON || unit == BRACKET
}

fn is_slash(unit: u16) -> bool
    ensures { result ≡ units_spec.is_slash unit }
{
    unit == SLASH
}

fn is_angle(unit: u16) -> bool
    ensures { result ≡ is_one_of (codes "<>") unit }
{
    unit == LESS || unit == GREATER
}
