//! The names of attributes (JVMS 4.7).

ghost use Rattle.std.specs.Prelude.{◌≡◌, ◌≤◌, ◌+◌, length, IfOk};
ghost use Rattle.byte_reader.specs.Reader.{GivesBy};
ghost use Rattle.class_grammar.specs.Attributes as spec;
ghost use Rattle.class_file.specs.Attributes.{name_at};
ghost use Rattle.class_file.specs.AttributeNames.{name_and_rest};

use crate::numbers::u2_of;
use byte_reader::Stop;
use class_grammar::{ClassWhy, Holder, is_same_counted, text_at};
use class_model::Const;
use std::sync::ledger::Ledger;
use steps::Steps;

/// The name of an attribute: its index in the constant pool, and the text there.
#[derive(Clone, Copy)]
pub struct Name<'a> {
    pub index: u16,
    pub text: &'a [u16],
}

/// Whether an attribute of this name is recognized in the holder (JVMS 4.7).
pub fn is_recognized<L: Ledger>(holder: Holder, name: &[u16], steps: &mut Steps<L>) -> bool
    ensures test { result ≡ spec.is_recognized holder name.now }
    ensures cost { steps.new ≤ steps.old + 13 }
{
    match holder {
        Holder::Class => false,
        Holder::Field => is_same_counted(name, b"ConstantValue", steps),
        Holder::Method => is_same_counted(name, b"Code", steps),
    }
}

/// Whether an attribute of a Code is a StackMapTable by its name (JVMS 4.7.4).
pub fn is_stack_map_name<L: Ledger>(name: &[u16], steps: &mut Steps<L>) -> bool
    ensures test { result ≡ spec.is_stack_map_name name.now }
    ensures cost { steps.new ≤ steps.old + 13 }
{
    is_same_counted(name, b"StackMapTable", steps)
}

/// The name of an attribute, and the bytes after it.
#[tactic(auto, unfolding(crate::specs::Attributes::name_at))]
pub fn name_of<'p, 'a>(
    pool: &'p [Const],
    bytes: &'a [u8],
) -> Result<(Name<'p>, &'a [u8]), Stop<ClassWhy>>
    ensures read { GivesBy name_and_rest result (name_at pool.now bytes.now) }
    ensures size { IfOk result (λ x. length x.1.now + 2 ≡ length bytes.now) }
{
    let (index, rest) = u2_of(bytes)?;
    match text_at(pool, index) {
        Some(text) => Ok((Name { index, text }, rest)),
        None => Err(Stop::at(bytes, ClassWhy::Index)),
    }
}
