//! The members of a class by their keys.

ghost use Rattle.std.specs.Prelude.{◌≡◌, ◌<◌, ◌^◌, length, IfOk, IfSome, OnOk};
ghost use Rattle.link_resolution.specs.Names.{Adds, at_text};
ghost use Rattle.link_resolution.specs.MemberTables.{Finds, IndexesMany};
ghost use Rattle.link_resolution.specs.Keys.{key_of};
ghost use Rattle.link_resolution.specs.KeyTexts as texts;
ghost use Rattle.link_resolution.specs.KeyTexts.{AddsMember, IndexesAll};

use crate::members::MemberKey;
use class_grammar::text_at;
use class_model::{Const, Member};
use items::NoMemory;
use std::alloc::Global;
use std::collections::BTreeMap;

/// The most members of a class that are gone through one by one; past these a class has an index of them.
const FEW: usize = 32;

/// The unit before each unit of a name.
const MORE: u16 = 1;

/// The unit after a name.
const END: u16 = 0;

/// The indices of the fields or of the methods of a class by the texts of their keys, in a map whose cost nobody can raise by
/// choosing names.
pub type MemberIndex = BTreeMap<Vec<u16>, u32>;

// A key as one text: no two keys have the same.
fn key_text(alloc: Global, key: MemberKey) -> Result<Vec<u16>, NoMemory>
    ensures { IfOk result (λ text. text.items ≡ texts.key_text (key_of key.entry)) }
{
    let mut text = Vec::new(alloc);
    for unit in key.name {
        text.push(MORE)?;
        text.push(*unit)?;
    }
    text.push(END)?;
    text.extend_from_slice(key.descriptor)?;
    Ok(text)
}

// Adds a text, unless the map has it already.
fn add_text(
    alloc: Global,
    map: &mut BTreeMap<Vec<u16>, u32>,
    text: &[u16],
    index: u32,
) -> Result<(), NoMemory>
    ensures { OnOk result (Adds map.old text.now index map.new) }
{
    if map.contains_key(text) {
        return Ok(());
    }
    let key = Vec::from_slice(alloc, text)?;
    map.insert(key, index)?;
    Ok(())
}

// Adds a member, unless there is one of its key.
fn add_member(
    alloc: Global,
    map: &mut MemberIndex,
    pool: &[Const],
    member: &Member,
    index: u32,
) -> Result<(), NoMemory>
    ensures { OnOk result (AddsMember map.old pool.now member.now index map.new) }
{
    let Some(name) = text_at(pool, member.name) else {
        return Ok(());
    };
    let Some(descriptor) = text_at(pool, member.descriptor) else {
        return Ok(());
    };
    let text = key_text(alloc, MemberKey { name, descriptor })?;
    add_text(alloc, map, &text, index)?;
    Ok(())
}

// Each member by its key; of several with one key, the first.
fn by_key(alloc: Global, pool: &[Const], members: &[Member]) -> Result<MemberIndex, NoMemory>
    requires { length members.now < 2 ^ 32 }
    ensures { IfOk result (λ m. IndexesAll pool.now members.now m) }
{
    let mut map = BTreeMap::new(alloc);
    for (index, member) in members.iter().enumerate() {
        add_member(alloc, &mut map, pool, member, index as u32)?;
    }
    Ok(map)
}

/// The index of members with this pool, where there are many. Past 2^32 of them memory counts as run out.
pub fn index_of_many(
    alloc: Global,
    pool: &[Const],
    members: &[Member],
) -> Result<Option<MemberIndex>, NoMemory>
    ensures { IfOk result (λ o. IndexesMany pool.now members.now o) }
{
    if members.len() <= FEW {
        return Ok(None);
    }
    if members.len() > u32::MAX as usize {
        return Err(NoMemory);
    }
    Ok(Some(by_key(alloc, pool, members)?))
}

// Looks a key up in an index.
fn find(alloc: Global, index: &MemberIndex, key: MemberKey) -> Result<Option<usize>, NoMemory>
    ensures { IfOk result (λ o. o ≡ at_text index.now (texts.key_text (key_of key.entry))) }
{
    let text = key_text(alloc, key)?;
    match index.get(text.as_slice()) {
        Some(index) => Ok(Some(*index as usize)),
        None => Ok(None),
    }
}

/// Looks a key up in the index of a class. `None`: the class has no index, or memory ran out.
pub fn find_in(
    alloc: Global,
    indexes: &[Option<MemberIndex>],
    class: u32,
    key: MemberKey,
) -> Option<Option<usize>>
    ensures { IfSome result (λ o. Finds indexes.now class (key_of key.entry) o) }
{
    match indexes.get(class as usize) {
        Some(Some(index)) => find_or_none(alloc, index, key),
        _ => None,
    }
}

// Looks a key up in an index. `None`: memory ran out.
fn find_or_none(alloc: Global, index: &MemberIndex, key: MemberKey) -> Option<Option<usize>>
    ensures { IfSome result (λ o. o ≡ at_text index.now (texts.key_text (key_of key.entry))) }
{
    match find(alloc, index, key) {
        Ok(index) => Some(index),
        Err(_) => None,
    }
}
