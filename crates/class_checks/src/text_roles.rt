//! What each text of the pool may be used as, found once however often it is referred to.

ghost use Rattle.std.specs.Prelude.{◌≡◌, ◌≤◌, ◌+◌, ◌*◌, ◌∷◌, [], map, length, IfOk, Some, true, false};
ghost use Rattle.std.specs.List.{sum_by};
ghost use Rattle.descriptors.specs.Descriptors.{are_parts};
ghost use Rattle.descriptors.specs.States as descriptors_spec;
ghost use Rattle.class_grammar.specs.Names as grammar;
ghost use Rattle.class_grammar.specs.Names.{string_descriptor};
ghost use Rattle.class_grammar.specs.Text.{same_text};
ghost use Rattle.class_checks.specs.Costs as costs;
ghost use Rattle.class_checks.specs.Names as names_spec;
ghost use Rattle.class_checks.specs.TextRoles as spec;

use crate::names::{NOTHING, Names, begins_with, ends_with_semicolon, names_by_units, names_of};
use class_grammar::is_same_counted;
use class_model::Const;
use descriptors::{
    BOOL_LETTER, BRACKET, BYTE_LETTER, CHAR_LETTER, CLASS_LETTER, DOUBLE_LETTER, FLOAT_LETTER,
    INT_LETTER, LONG_LETTER, OPEN_PARENTHESIS, SHORT_LETTER, is_field_counted, is_method_counted,
};
use std::alloc::{AllocError, Global};
use std::sync::ledger::Ledger;
use steps::Steps;

/// What the text at an index of the pool may be used as. Where there is no text, all are false.
#[derive(Clone, Copy)]
pub struct TextRoles {
    /// The name of a field (JVMS 4.2.2).
    pub is_field_name: bool,
    /// The name of a method (JVMS 4.2.2).
    pub is_method_name: bool,
    /// The name of a class, or the descriptor of an array (JVMS 4.4.1).
    pub is_class_name: bool,
    /// The descriptor of a field (JVMS 4.3.2).
    pub is_field: bool,
    /// The descriptor of a method (JVMS 4.3.3).
    pub is_method: bool,
    /// The descriptor of a field that is a String (JVMS 4.7.2).
    pub is_string: bool,
}

/// The roles of an entry that is no text.
pub const NO_TEXT: TextRoles = TextRoles {
    is_field_name: false,
    is_method_name: false,
    is_class_name: false,
    is_field: false,
    is_method: false,
    is_string: false,
};

/// The roles of each entry of the pool.
pub fn roles_of<L: Ledger>(
    alloc: Global,
    pool: &[Const],
    steps: &mut Steps<L>,
) -> Result<Vec<TextRoles>, AllocError>
    ensures roles { IfOk result (λ roles. roles.items ≡ map spec.entry_roles pool.now) }
    ensures cost { steps.new ≤ steps.old + sum_by costs.judging pool.now }
{
    let mut roles = Vec::with_capacity(alloc, pool.len())?;
    for constant in pool {
        roles.push(entry_roles(constant, steps))?;
    }
    Ok(roles)
}

#[tactic(auto, unfolding(crate::specs::TextRoles::entry_roles))]
fn entry_roles<L: Ledger>(constant: &Const, steps: &mut Steps<L>) -> TextRoles
    ensures roles { result ≡ spec.entry_roles constant.now }
    ensures cost { steps.new ≤ steps.old + costs.judging constant.now }
{
    match constant {
        Const::Utf8(units) => text_roles(units, steps),
        _ => NO_TEXT,
    }
}

// A text is gone over as the descriptor of a field or of a method, as its first unit allows. Where it is that of a class it is
// no name, and else it is gone over as names.
fn text_roles<L: Ledger>(units: &[u16], steps: &mut Steps<L>) -> TextRoles
    ensures roles { result ≡ spec.roles_of (Some units.now) }
    ensures cost { steps.new ≤ steps.old + 2 * length units.now + 8 }
{
    let is_method = is_method_text(units, steps);
    let is_field = is_field_text(units, steps);
    let is_class = is_class_descriptor(is_field, units);
    let names = names_beside(is_class, units, steps);
    let is_string = is_string_text(is_class, units, steps);
    TextRoles {
        is_field_name: names.of_field,
        is_method_name: names.of_method,
        is_class_name: is_class_name(names.of_class, is_field, units),
        is_field,
        is_method,
        is_string,
    }
}

// Whether the text, if it is the descriptor of a field, is that of a class.
fn is_class_descriptor(is_field: bool, units: &[u16]) -> bool
    requires { is_field ≡ descriptors_spec.is_field units.now }
    ensures { result ≡ spec.is_class_descriptor units.now }
{
    is_field && begins_with(CLASS_LETTER, units)
}

// Whether the text is the name of a class, or the descriptor of an array.
fn is_class_name(of_class: bool, is_field: bool, units: &[u16]) -> bool
    requires name { of_class ≡ are_parts false units.now }
    requires field { is_field ≡ descriptors_spec.is_field units.now }
    ensures { result ≡ grammar.is_class_text units.now }
{
    of_class || begins_with(BRACKET, units) && is_field
}

// Whether the text is the descriptor of a method. It is gone over where it begins as one.
#[tactic(auto, using(crate::proofs::NameLaws::no_method))]
fn is_method_text<L: Ledger>(units: &[u16], steps: &mut Steps<L>) -> bool
    ensures test { result ≡ descriptors_spec.is_method units.now }
    ensures cost { steps.new ≤ steps.old + length units.now }
    ensures none { grammar.begins_with (40 ∷ []) units.now ≡ false → steps.new ≡ steps.old }
{
    if !begins_with(OPEN_PARENTHESIS, units) {
        return false;
    }
    is_method_counted(units, steps)
}

// Whether the text is the descriptor of a field. It is gone over where its first unit and its last one are those of one.
#[tactic(auto, using(crate::proofs::NameLaws::no_field, crate::proofs::NameLaws::no_parenthesis_first))]
fn is_field_text<L: Ledger>(units: &[u16], steps: &mut Steps<L>) -> bool
    ensures test { result ≡ descriptors_spec.is_field units.now }
    ensures cost { steps.new ≤ steps.old + length units.now }
    ensures none { grammar.begins_with (40 ∷ []) units.now ≡ true → steps.new ≡ steps.old }
{
    if !may_be_field(units) {
        return false;
    }
    if begins_with(CLASS_LETTER, units) {
        return is_class_by_name(units, steps);
    }
    is_field_counted(units, steps)
}

// Whether a text that begins and ends as the descriptor of a class is one, by the name between.
fn is_class_by_name<L: Ledger>(units: &[u16], steps: &mut Steps<L>) -> bool
    requires begins { grammar.begins_with (76 ∷ []) units.now ≡ true }
    requires ends { spec.may_be_field units.now ≡ true }
    ensures test { result ≡ descriptors_spec.is_field units.now }
    ensures cost { steps.new ≤ steps.old + length units.now }
{
    names_by_units(&units[1..units.len() - 1], steps).of_class
}

// Whether the text can be the descriptor of a field, by its first unit and its last one.
fn may_be_field(units: &[u16]) -> bool
    ensures { result ≡ spec.may_be_field units.now }
{
    match units {
        [first, rest @ ..] => match *first {
            BRACKET => true,
            CLASS_LETTER => ends_with_semicolon(rest),
            BYTE_LETTER
            | CHAR_LETTER
            | DOUBLE_LETTER
            | FLOAT_LETTER
            | INT_LETTER
            | LONG_LETTER
            | SHORT_LETTER
            | BOOL_LETTER => rest.is_empty(),
            _ => false,
        },
        [] => false,
    }
}

// What the text may be the name of: nothing, where it is the descriptor of a class.
fn names_beside<L: Ledger>(is_class: bool, units: &[u16], steps: &mut Steps<L>) -> Names
    requires { is_class ≡ spec.is_class_descriptor units.now }
    ensures names { result ≡ names_spec.names_of units.now }
    ensures cost { steps.new ≤ steps.old + length units.now + 8 }
    ensures none { is_class ≡ true → steps.new ≡ steps.old }
{
    if is_class {
        return NOTHING;
    }
    names_of(units, steps)
}

// Whether the text is the descriptor of String.
fn is_string_text<L: Ledger>(is_class: bool, units: &[u16], steps: &mut Steps<L>) -> bool
    requires { is_class ≡ spec.is_class_descriptor units.now }
    ensures test { result ≡ same_text units.now string_descriptor }
    ensures cost { steps.new ≤ steps.old + length units.now }
    ensures none { is_class ≡ false → steps.new ≡ steps.old }
{
    if !is_class {
        return false;
    }
    is_same_counted(units, b"Ljava/lang/String;", steps)
}
