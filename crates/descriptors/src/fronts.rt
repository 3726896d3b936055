//! What each unit of a descriptor does (JVMS 4.3), and the first that is not allowed: for the
//! tests and for the readers.

ghost use Rattle.std.specs.Prelude.{◌≡◌, ◌≤◌, ◌+◌, length, drop, IfSome};
ghost use Rattle.descriptors.specs.Descriptors as chars;
ghost use Rattle.descriptors.specs.declared.fronts.Front.TheVariants as fronts;
ghost use Rattle.descriptors.specs.States as spec;

use crate::letters::{
    BOOL_LETTER, BRACKET, BYTE_LETTER, CHAR_LETTER, CLASS_LETTER, CLOSE_PARENTHESIS, DOT,
    DOUBLE_LETTER, FLOAT_LETTER, INT_LETTER, LONG_LETTER, OPEN_PARENTHESIS, SEMICOLON,
    SHORT_LETTER, SLASH, VOID_LETTER,
};
use std::sync::ledger::Ledger;
use steps::Steps;

/// What was read of the descriptor of a kind.
#[derive(Clone, Copy)]
pub enum Front {
    /// This many `[`.
    Brackets(u8),
    /// The name of a class, whose last part has a unit or has none yet.
    Name(bool),
}

/// What one more unit does to the descriptor of a kind.
#[derive(Clone, Copy)]
pub enum Turn {
    Ends,
    GoesOn(Front),
    /// The unit is not allowed there.
    Stops,
}

pub const START: Front = Front::Brackets(0);

// Whether the unit is a kind by itself.
fn is_base(unit: u16) -> bool
    ensures { result ≡ chars.is_base unit }
{
    matches!(
        unit,
        BYTE_LETTER
            | CHAR_LETTER
            | DOUBLE_LETTER
            | FLOAT_LETTER
            | INT_LETTER
            | LONG_LETTER
            | SHORT_LETTER
            | BOOL_LETTER
    )
}

// The slots that an argument takes which begins so (JVMS 4.3.3).
fn slots_by(unit: u16) -> u16
    ensures { result ≡ chars.unit_slots unit }
{
    match unit {
        DOUBLE_LETTER | LONG_LETTER => 2,
        _ => 1,
    }
}

impl Front {
    fn is_start(self) -> bool
        ensures { result ≡ spec.is_start self }
    {
        matches!(self, Front::Brackets(0))
    }

    // Whether the unit is a letter in a name: all that it does is to begin the last part.
    fn is_letter_of_name(self, unit: u16) -> bool
        ensures { result ≡ spec.is_letter_of_name self unit }
    {
        match self {
            Front::Brackets(_) => false,
            Front::Name(_) => is_letter(unit),
        }
    }

    fn turn(self, unit: u16) -> Turn
        ensures { result ≡ spec.turn self unit }
    {
        match self {
            Front::Brackets(count) => bracket_turn(count, unit),
            Front::Name(begun) => name_turn(begun, unit),
        }
    }
}

// Whether the unit is one that every name may have, as letters are.
fn is_letter(unit: u16) -> bool
    ensures { result ≡ spec.is_letter unit }
{
    unit > BRACKET || u16::from(b'A') <= unit && unit <= u16::from(b'Z')
}

fn bracket_turn(count: u8, unit: u16) -> Turn
    ensures { result ≡ spec.bracket_turn count unit }
{
    if unit == BRACKET {
        if count < 255 {
            Turn::GoesOn(Front::Brackets(count + 1))
        } else {
            Turn::Stops
        }
    } else if unit == CLASS_LETTER {
        Turn::GoesOn(Front::Name(false))
    } else if is_base(unit) {
        Turn::Ends
    } else {
        Turn::Stops
    }
}

fn name_turn(begun: bool, unit: u16) -> Turn
    ensures { result ≡ spec.name_turn begun unit }
{
    if unit == SEMICOLON {
        if begun { Turn::Ends } else { Turn::Stops }
    } else if unit == SLASH {
        if begun {
            Turn::GoesOn(Front::Name(false))
        } else {
            Turn::Stops
        }
    } else if unit == DOT || unit == BRACKET {
        Turn::Stops
    } else {
        Turn::GoesOn(Front::Name(true))
    }
}

// The slots of the arguments with the one that a unit begins, or goes on with.
fn slots_with(slots: u16, front: Front, unit: u16) -> u16
    requires { slots ≤ 255 }
    ensures { result ≡ spec.slots_with slots front unit }
{
    if front.is_start() {
        slots + slots_by(unit)
    } else {
        slots
    }
}

// The offset of the first unit from `start` on that is not allowed where all is read.
fn whole_bad(units: &[u16], start: usize) -> Option<usize>
    requires { start ≤ length units.now }
    ensures first { result ≡ spec.first_bad spec.Whole start (drop start units.now) }
    ensures within { IfSome result (λ at. at ≤ length units.now) }
{
    if start < units.len() {
        Some(start)
    } else {
        None
    }
}

// The same in the descriptor of a field. Where the units end too early, it is their number.
fn bad_in_field(units: &[u16], start: usize) -> Option<usize>
    requires { start ≤ length units.now }
    ensures first { result ≡
        spec.first_bad (spec.Field (fronts.Brackets 0)) start (drop start units.now) }
    ensures within { IfSome result (λ at. at ≤ length units.now) }
{
    let mut front = START;
    for index in start..units.len() {
        if front.is_letter_of_name(units[index]) {
            front = Front::Name(true);
            continue;
        }
        match front.turn(units[index]) {
            Turn::Ends => return whole_bad(units, index + 1),
            Turn::GoesOn(more) => front = more,
            Turn::Stops => return Some(index),
        }
    }
    Some(units.len())
}

// The same in the result of a method.
fn bad_in_result(units: &[u16], start: usize) -> Option<usize>
    requires { start ≤ length units.now }
    ensures first { result ≡ spec.first_bad spec.Result start (drop start units.now) }
    ensures within { IfSome result (λ at. at ≤ length units.now) }
{
    if start < units.len() && units[start] == VOID_LETTER {
        return whole_bad(units, start + 1);
    }
    bad_in_field(units, start)
}

// The same in the arguments and the result of a method, which begin after the first unit.
fn bad_behind_parenthesis(units: &[u16]) -> Option<usize>
    requires { 1 ≤ length units.now }
    ensures first { result ≡
        spec.first_bad (spec.Args 0 (fronts.Brackets 0)) 1 (drop 1 units.now) }
    ensures within { IfSome result (λ at. at ≤ length units.now) }
{
    let mut slots = 0u16;
    let mut front = START;
    for index in 1..units.len() {
        let unit = units[index];
        if front.is_letter_of_name(unit) {
            front = Front::Name(true);
            continue;
        }
        if front.is_start() && unit == CLOSE_PARENTHESIS {
            return bad_in_result(units, index + 1);
        }
        slots = slots_with(slots, front, unit);
        if slots > 255 {
            return Some(index);
        }
        match front.turn(unit) {
            Turn::Ends => front = START,
            Turn::GoesOn(more) => front = more,
            Turn::Stops => return Some(index),
        }
    }
    Some(units.len())
}

/// The offset of the first unit that is not allowed in the descriptor of a field, the number of units where they end too
/// early, or none. Each unit takes a step.
pub fn field_bad<L: Ledger>(units: &[u16], steps: &mut Steps<L>) -> Option<usize>
    ensures first { result ≡ spec.first_bad (spec.Field (fronts.Brackets 0)) 0 units.now }
    ensures within { IfSome result (λ at. at ≤ length units.now) }
    ensures cost { steps.new ≡ steps.old + length units.now }
{
    steps.spend(units.len());
    bad_in_field(units, 0)
}

/// The same in the descriptor of a method.
pub fn method_bad<L: Ledger>(units: &[u16], steps: &mut Steps<L>) -> Option<usize>
    ensures first { result ≡ spec.first_bad spec.Method 0 units.now }
    ensures within { IfSome result (λ at. at ≤ length units.now) }
    ensures cost { steps.new ≡ steps.old + length units.now }
{
    let count = units.len();
    steps.spend(count);
    if count == 0 || units[0] != OPEN_PARENTHESIS {
        return Some(0);
    }
    bad_behind_parenthesis(units)
}
