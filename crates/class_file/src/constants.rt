//! The constant pool (JVMS 4.4).

ghost use Rattle.std.specs.Prelude.{◌≡◌, ◌≢◌, ◌<◌, ◌≤◌, ◌+◌, ◌*◌, ◌^◌, length, IfOk, OnOk};
ghost use Rattle.std.specs.Io.{StartsWith};
ghost use Rattle.jvm_utf8.specs.Units as utf8;
ghost use Rattle.byte_reader.specs.Reader.{GivesBy, Reads};
ghost use Rattle.class_file.specs.Constants as spec;
ghost use Rattle.class_file.specs.Costs.{later, later_of_pool};
ghost use Rattle.class_file.specs.Texts.{Appends, ComesWith, ReadsEntry, appended, constant_of};

use crate::numbers::{bytes_of, pair_of, u1_of, u2_of, u4_of, u8_of};
use crate::plain::{LANES, append_front, are_plain};
use crate::texts::{Entry, place_texts, push_entry};
use byte_reader::{Fault, Stop};
use class_grammar::{ClassFault, ClassWhy};
use class_model::{
    Const, TAG_CLASS, TAG_DOUBLE, TAG_DYNAMIC, TAG_FIELDREF, TAG_FLOAT, TAG_INTEGER,
    TAG_INTERFACE_METHODREF, TAG_INVOKE_DYNAMIC, TAG_LONG, TAG_METHOD_HANDLE, TAG_METHOD_TYPE,
    TAG_METHODREF, TAG_MODULE, TAG_NAME_AND_TYPE, TAG_PACKAGE, TAG_STRING, TAG_UTF8,
};
use items::Items;
use jvm_utf8::{Utf8Error, decode_onto};
use std::alloc::Global;
use std::sync::ledger::Ledger;
use steps::Steps;

// Appends the units of any text. `left` is the number of bytes from the text to the end.
fn units_by_form<L: Ledger>(
    alloc: Global,
    units: &mut Vec<u16>,
    text: &[u8],
    left: usize,
    steps: &mut Steps<L>,
) -> Result<(), Stop<ClassWhy>>
    requires { length text.now < 2 ^ 32 }
    ensures read { GivesBy (λ _. appended units.old.items units.new.items) result
        (spec.units_of left (utf8.units_of text.now)) }
    ensures kept { OnOk result (Appends units.old.items units.new.items) }
    ensures few { OnOk result
        (length (appended units.old.items units.new.items) ≤ length text.now) }
    ensures cost { steps.new ≡ steps.old + length text.now }
{
    match decode_onto(alloc, units, text, steps) {
        Ok(()) => Ok(()),
        Err(Utf8Error::Bad { at }) => Err(Stop::Fault(Fault {
            left: left.saturating_sub(at as usize),
            why: ClassWhy::Utf8,
        })),
        Err(Utf8Error::NoMemory) => Err(Stop::NoMemory),
    }
}

// Appends the units of a text, which `front` begins with. Where each byte is a unit by itself, as in most texts, and enough bytes
// follow, several bytes are looked at together.
fn units_of<L: Ledger>(
    alloc: Global,
    units: &mut Vec<u16>,
    text: &[u8],
    front: &[u8],
    steps: &mut Steps<L>,
) -> Result<(), Stop<ClassWhy>>
    requires small { length text.now < 2 ^ 32 }
    requires front { StartsWith front.now text.now }
    ensures read { GivesBy (λ _. appended units.old.items units.new.items) result
        (spec.units_of (length front.now) (utf8.units_of text.now)) }
    ensures kept { OnOk result (Appends units.old.items units.new.items) }
    ensures few { OnOk result
        (length (appended units.old.items units.new.items) ≤ length text.now) }
    ensures cost { steps.new ≡ steps.old + length text.now }
{
    if text.len() + LANES <= front.len() && are_plain(front, text.len()) {
        steps.spend(text.len());
        append_front(units, front, text.len())?;
        return Ok(());
    }
    units_by_form(alloc, units, text, front.len(), steps)
}

// Appends the units of a text after its length (JVMS 4.4.7), and gives the bytes after it.
#[tactic(auto, unfolding(crate::specs::Constants::text_at))]
fn text_of<'a, L: Ledger>(
    alloc: Global,
    units: &mut Vec<u16>,
    bytes: &'a [u8],
    steps: &mut Steps<L>,
) -> Result<&'a [u8], Stop<ClassWhy>>
    ensures read { GivesBy (λ rest. (appended units.old.items units.new.items, rest.now)) result
        (spec.text_at bytes.now) }
    ensures kept { IfOk result (λ _. Appends units.old.items units.new.items) }
    ensures few { IfOk result (λ _. length (appended units.old.items units.new.items) < 2 ^ 16) }
    ensures cost { steps.new ≤ steps.old + 4 * length bytes.now }
    // A step for each byte was spent, and two goes over the units and their size are still to come.
    ensures rest { IfOk result (λ rest.
        steps.new + 3 * length (appended units.old.items units.new.items) + 8 + 4 * length rest.now
        ≤ steps.old + 4 * length bytes.now) }
{
    let (count, front) = u2_of(bytes)?;
    let (text, rest) = bytes_of(usize::from(count), front)?;
    units_of(alloc, units, text, front, steps)?;
    Ok(rest)
}

// The constant after a tag from TAG_METHOD_HANDLE on (JVMS 4.4.8 to 4.4.12).
#[tactic(auto, unfolding(crate::specs::Constants::tagged_at))]
fn later_of(unknown: ClassFault, tag: u8, bytes: &[u8]) -> Result<(Const, &[u8]), Stop<ClassWhy>>
    requires { TAG_METHOD_HANDLE ≤ tag }
    ensures read { Reads result (spec.tagged_at unknown tag bytes.now) }
    ensures rest { IfOk result (λ x. later x.0 + length x.1.now ≤ length bytes.now) }
{
    match tag {
        TAG_METHOD_HANDLE => {
            let (kind, rest) = u1_of(bytes)?;
            let (member, rest) = u2_of(rest)?;
            Ok((Const::MethodHandle(kind, member), rest))
        }
        TAG_METHOD_TYPE => {
            let (descriptor, rest) = u2_of(bytes)?;
            Ok((Const::MethodType(descriptor), rest))
        }
        TAG_DYNAMIC => {
            let ((bootstrap, member), rest) = pair_of(bytes)?;
            Ok((Const::Dynamic(bootstrap, member), rest))
        }
        TAG_INVOKE_DYNAMIC => {
            let ((bootstrap, member), rest) = pair_of(bytes)?;
            Ok((Const::InvokeDynamic(bootstrap, member), rest))
        }
        TAG_MODULE => {
            let (name, rest) = u2_of(bytes)?;
            Ok((Const::Module(name), rest))
        }
        TAG_PACKAGE => {
            let (name, rest) = u2_of(bytes)?;
            Ok((Const::Package(name), rest))
        }
        _ => Err(Stop::Fault(unknown)),
    }
}

// The constant after a tag from TAG_CLASS on (JVMS 4.4.1 to 4.4.3, 4.4.6, 4.4.8 to 4.4.12).
#[tactic(auto, unfolding(crate::specs::Constants::tagged_at))]
fn reference_of(
    unknown: ClassFault,
    tag: u8,
    bytes: &[u8],
) -> Result<(Const, &[u8]), Stop<ClassWhy>>
    requires { TAG_CLASS ≤ tag }
    ensures read { Reads result (spec.tagged_at unknown tag bytes.now) }
    ensures rest { IfOk result (λ x. later x.0 + length x.1.now ≤ length bytes.now) }
{
    match tag {
        TAG_CLASS => {
            let (name, rest) = u2_of(bytes)?;
            Ok((Const::Class(name), rest))
        }
        TAG_STRING => {
            let (units, rest) = u2_of(bytes)?;
            Ok((Const::Text(units), rest))
        }
        TAG_FIELDREF => {
            let ((class, member), rest) = pair_of(bytes)?;
            Ok((Const::Fieldref(class, member), rest))
        }
        TAG_METHODREF => {
            let ((class, member), rest) = pair_of(bytes)?;
            Ok((Const::Methodref(class, member), rest))
        }
        TAG_INTERFACE_METHODREF => {
            let ((class, member), rest) = pair_of(bytes)?;
            Ok((Const::InterfaceMethodref(class, member), rest))
        }
        TAG_NAME_AND_TYPE => {
            let ((name, descriptor), rest) = pair_of(bytes)?;
            Ok((Const::NameAndType(name, descriptor), rest))
        }
        TAG_METHOD_HANDLE.. => later_of(unknown, tag, bytes),
        _ => Err(Stop::Fault(unknown)),
    }
}

// The constant after a tag that is not TAG_UTF8 (JVMS 4.4).
#[tactic(auto, unfolding(crate::specs::Constants::tagged_at))]
fn other_of(unknown: ClassFault, tag: u8, bytes: &[u8]) -> Result<(Const, &[u8]), Stop<ClassWhy>>
    requires { tag ≢ TAG_UTF8 }
    ensures read { Reads result (spec.tagged_at unknown tag bytes.now) }
    ensures rest { IfOk result (λ x. later x.0 + length x.1.now ≤ length bytes.now) }
{
    match tag {
        TAG_INTEGER => {
            let (bits, rest) = u4_of(bytes)?;
            Ok((Const::Integer(bits.cast_signed()), rest))
        }
        TAG_FLOAT => {
            let (bits, rest) = u4_of(bytes)?;
            Ok((Const::Float(bits), rest))
        }
        TAG_LONG => {
            let (bits, rest) = u8_of(bytes)?;
            Ok((Const::Long(bits.cast_signed()), rest))
        }
        TAG_DOUBLE => {
            let (bits, rest) = u8_of(bytes)?;
            Ok((Const::Double(bits), rest))
        }
        TAG_CLASS.. => reference_of(unknown, tag, bytes),
        _ => Err(Stop::Fault(unknown)),
    }
}

// The constant after a tag (JVMS 4.4). `unknown` is the fault where no constant has the tag.
#[tactic(auto, unfolding(crate::specs::Constants::tagged_at), using(crate::proofs::TextPlaces::appends_none, crate::proofs::TextPlaces::none_appended))]
fn tagged_of<'a, L: Ledger>(
    alloc: Global,
    unknown: ClassFault,
    tag: u8,
    units: &mut Vec<u16>,
    bytes: &'a [u8],
    steps: &mut Steps<L>,
) -> Result<(Entry, &'a [u8]), Stop<ClassWhy>>
    ensures read { ReadsEntry units.old.items units.new.items result
        (spec.tagged_at unknown tag bytes.now) }
    ensures units { IfOk result (λ x. ComesWith x.0 units.old.items units.new.items) }
    ensures cost { steps.new ≤ steps.old + 4 * length bytes.now }
    ensures rest { IfOk result (λ x.
        steps.new + later (constant_of (appended units.old.items units.new.items) x.0)
        + 4 * length x.1.now ≤ steps.old + 4 * length bytes.now) }
{
    if tag == TAG_UTF8 {
        let rest = text_of(alloc, units, bytes, steps)?;
        return Ok((Entry::Text, rest));
    }
    let (constant, rest) = other_of(unknown, tag, bytes)?;
    Ok((Entry::Other(constant), rest))
}

// An entry of the pool, with `more` entries after it. The entry after a Long or a Double takes no bytes, and may not be missing
// (JVMS 4.4.5).
#[tactic(auto, unfolding(crate::specs::Constants::constant_at), using(crate::proofs::TextPlaces::appends_none, crate::proofs::TextPlaces::none_appended))]
fn entry_of<'a, L: Ledger>(
    alloc: Global,
    behind: bool,
    more: u16,
    units: &mut Vec<u16>,
    bytes: &'a [u8],
    steps: &mut Steps<L>,
) -> Result<(Entry, &'a [u8]), Stop<ClassWhy>>
    ensures read { ReadsEntry units.old.items units.new.items result
        (spec.entry_at behind more bytes.now) }
    ensures units { IfOk result (λ x. ComesWith x.0 units.old.items units.new.items) }
    ensures cost { steps.new ≤ steps.old + 4 * length bytes.now }
    ensures rest { IfOk result (λ x.
        steps.new + later (constant_of (appended units.old.items units.new.items) x.0)
        + 4 * length x.1.now ≤ steps.old + 4 * length bytes.now) }
{
    if behind {
        return Ok((Entry::Other(Const::Unused), bytes));
    }
    let (tag, rest) = u1_of(bytes)?;
    if (tag == TAG_LONG || tag == TAG_DOUBLE) && more == 0 {
        return Err(Stop::at(bytes, ClassWhy::Count));
    }
    let unknown = Fault {
        left: bytes.len(),
        why: ClassWhy::Tag,
    };
    tagged_of(alloc, unknown, tag, units, rest, steps)
}

// Entry 0, which is not used, and that many entries after it.
fn entries_of<'a, L: Ledger>(
    alloc: Global,
    count: u16,
    bytes: &'a [u8],
    steps: &mut Steps<L>,
) -> Result<(Items<Const>, &'a [u8]), Stop<ClassWhy>>
    ensures read { Reads result (spec.all_entries_at count bytes.now) }
    ensures cost { steps.new ≤ steps.old + 4 * length bytes.now }
    ensures rest { IfOk result (λ x.
        steps.new + later_of_pool x.0 + 4 * length x.1.now ≤ steps.old + 4 * length bytes.now) }
{
    // A constant has three bytes or more, and a Long or a Double nine for its two entries.
    let most = usize::from(count).min(bytes.len() / 3);
    let mut constants = Vec::with_capacity(alloc, 1 + most)?;
    constants.push(Const::Unused)?;
    let mut units = Vec::with_capacity(alloc, bytes.len())?;
    let mut marks = Vec::with_capacity(alloc, most)?;
    let mut rest = bytes;
    let mut behind = false;
    for index in 0..count {
        let before = units.len();
        let more = count - (index + 1);
        let (entry, after) = entry_of(alloc, behind, more, &mut units, rest, steps)?;
        behind = entry.is_wide();
        push_entry(&mut constants, &mut marks, entry, &units, before)?;
        rest = after;
    }
    units.shrink_to_fit();
    place_texts(alloc, &mut constants, &marks, units)?;
    Ok((Items::from(constants), rest))
}

/// The pool after the number of its entries (JVMS 4.1).
#[tactic(auto, unfolding(crate::specs::Constants::pool_at))]
pub fn pool_of<'a, L: Ledger>(
    alloc: Global,
    bytes: &'a [u8],
    steps: &mut Steps<L>,
) -> Result<(Items<Const>, &'a [u8]), Stop<ClassWhy>>
    ensures read { Reads result (spec.pool_at bytes.now) }
    ensures cost { steps.new ≤ steps.old + 4 * length bytes.now }
    ensures rest { IfOk result (λ x.
        steps.new + later_of_pool x.0 + 4 * length x.1.now ≤ steps.old + 4 * length bytes.now) }
{
    let (count, rest) = u2_of(bytes)?;
    if count == 0 {
        return Err(Stop::at(bytes, ClassWhy::Count));
    }
    entries_of(alloc, count - 1, rest, steps)
}
