//! The superclasses and superinterfaces of each class (JVMS 5.3.5), found once for all.

ghost use Rattle.std.specs.Prelude.{◌≡◌, ◌+◌, ◌++◌, [], ◌∷◌, reverse, length, if◌then◌else◌, IfOk, OnOk, Some, slice_get};
ghost use Rattle.link_rules.specs.Hierarchy as spec;
ghost use Rattle.link_rules.specs.Members as members;
ghost use Rattle.link_resolution.specs.Keys.{key_of};
ghost use Rattle.link_resolution.specs.MemberTables.{AllIndexed};
ghost use Rattle.link_resolution.specs.Tables as tables;
ghost use Rattle.link_resolution.specs.Tables.{above, row_at, tabulate};

use crate::class_set::ClassSet;
use crate::classes::Classes;
use crate::member_index::{MemberIndex, find_in, index_of_many};
use crate::members::{MemberKey, index_of};
use class_grammar::class_name_at;
use class_model::ClassFile;
use items::{Items, NoMemory};
use std::alloc::Global;
use std::marker::Model;

/// The classes of a program with what is above each of them.
#[derive(Drop)]
pub struct Hierarchy {
    alloc: Global,
    classes: Classes,
    parents: Vec<Option<u32>>,
    supers: Vec<ClassSet>,
    superclasses: Vec<Items<u32>>,
    fields: Vec<Option<MemberIndex>>,
    methods: Vec<Option<MemberIndex>>,
}

impl Model for Hierarchy {
    ghost use Rattle.link_rules.specs.Program.{Program};

    ghost Value = { Program };

    ghost use Rattle.link_resolution.specs.Hierarchy.{program_of, IsOrdered};

    ghost view = { program_of };

    ghost invariant = { IsOrdered };
}

// The class at an index of a file's pool, where the program has it.
fn class_in(classes: &Classes, file: &ClassFile, index: u16) -> Option<u32>
    ensures { result ≡ spec.class_in classes.now file.now index }
{
    match class_name_at(&file.pool, index) {
        Some(name) => classes.class_named(name),
        None => None,
    }
}

// The superclass of a class, where the program has it.
fn parent_of(classes: &Classes, c: u32) -> Option<u32>
    ensures { result ≡ spec.parent_of classes.now c }
{
    match classes.file(c) {
        Some(file) => class_in(classes, file, file.parent),
        None => None,
    }
}

// The superclass of a class and then its direct superinterfaces from the last on, those that the program has: so a stack has
// them in the order in which they are to be met.
fn stacked_directs(alloc: Global, classes: &Classes, c: u32) -> Result<Items<u32>, NoMemory>
    ensures { IfOk result (λ v. v ≡ reverse (spec.directs classes.now c)) }
{
    let mut directs = interfaces_of(alloc, classes, c)?;
    if let Some(parent) = parent_of(classes, c) {
        directs.push(parent)?;
    }
    directs.reverse();
    Ok(Items::from(directs))
}

fn interfaces_of(alloc: Global, classes: &Classes, c: u32) -> Result<Vec<u32>, NoMemory>
    ensures { IfOk result (λ v. v.items ≡ spec.interfaces_of classes.now c) }
{
    match classes.file(c) {
        Some(file) => interfaces_in(alloc, classes, file),
        None => Ok(Vec::new(alloc)),
    }
}

fn interfaces_in(alloc: Global, classes: &Classes, file: &ClassFile) -> Result<Vec<u32>, NoMemory>
    ensures { IfOk result (λ v. v.items ≡ spec.interfaces_in classes.now file.now) }
{
    let found = file
        .interfaces
        .iter()
        .filter_map(|index| class_in(classes, file, *index))
        .collect(alloc)?;
    Ok(found)
}

// The list of a class in a table.
fn row_at(rows: &[Items<u32>], c: u32) -> &[u32]
    ensures { result.now ≡ row_at rows.now c }
{
    match rows.get(c as usize) {
        Some(row) => row.as_slice(),
        None => &[],
    }
}

// The classes of a set in a table.
fn above_in(sets: &[ClassSet], c: u32) -> &[u32]
    ensures { result.now ≡ row_at sets.now c }
{
    match sets.get(c as usize) {
        Some(set) => set.as_slice(),
        None => &[],
    }
}

// Whether the set of a class in a table has another class.
fn is_above_in(sets: &[ClassSet], c: u32, other: u32) -> bool
    ensures { result ≡ spec.is_among (row_at sets.now c) other }
{
    match sets.get(c as usize) {
        Some(set) => set.has(other),
        None => false,
    }
}

// Meets a class: unless it has been met before, what is above it is to do next.
fn meet(
    stacked: &[Items<u32>],
    class: u32,
    todo: &mut Vec<u32>,
    seen: &mut ClassSet,
) -> Result<(), NoMemory>
    ensures todo { OnOk result (reverse todo.new.items ≡
        (if spec.is_among seen.old class then reverse todo.old.items
        else reverse (row_at stacked.now class) ++ reverse todo.old.items)) }
    ensures seen { OnOk result (seen.new ≡
        (if spec.is_among seen.old class then seen.old else seen.old ++ class ∷ [])) }
{
    if seen.has(class) {
        return Ok(());
    }
    seen.add(class)?;
    todo.extend_from_slice(row_at(stacked, class))?;
    Ok(())
}

// The classes that are met from one on, each once.
fn visit(alloc: Global, stacked: &[Items<u32>], start: u32, most: u64) -> Result<ClassSet, NoMemory>
    ensures { IfOk result (λ v. v ≡ spec.visit (above stacked.now) most (start ∷ []) []) }
{
    let mut todo = Vec::new(alloc);
    todo.push(start)?;
    let mut seen = ClassSet::new(alloc);
    for _ in 0..most {
        let Some(class) = todo.pop() else {
            return Ok(seen);
        };
        meet(stacked, class, &mut todo, &mut seen)?;
    }
    Ok(seen)
}

// The superclass of a class by the table.
fn parent_at(parents: &[Option<u32>], c: u32) -> Option<u32>
    ensures { result ≡ tables.parent_at parents.now c }
{
    match parents.get(c as usize) {
        Some(parent) => *parent,
        None => None,
    }
}

// A class and its superclasses, at most `most` classes.
fn climb(
    alloc: Global,
    parents: &[Option<u32>],
    start: u32,
    most: u32,
) -> Result<Items<u32>, NoMemory>
    ensures { IfOk result (λ v. v ≡ spec.climb (tables.parent_at parents.now) most start) }
{
    let mut line = Vec::new(alloc);
    let mut next = Some(start);
    for _ in 0..most {
        let Some(class) = next else {
            return Ok(Items::from(line));
        };
        line.push(class)?;
        next = parent_at(parents, class);
    }
    Ok(Items::from(line))
}

// What is directly above each class, and how many visits find all that is above one.
#[derive(Drop)]
struct Directs {
    stacked: Vec<Items<u32>>,
    visits: u64,
}

fn all_directs(alloc: Global, classes: &Classes) -> Result<Directs, NoMemory>
    ensures stacked { IfOk result (λ d. d.stacked.items ≡
        tabulate (λ c. reverse (spec.directs classes.now c)) (length classes.now.classes)) }
    ensures visits { IfOk result (λ d. d.visits ≡
        spec.edges classes.now (length classes.now.classes) + 1) }
{
    let mut stacked = Vec::new(alloc);
    let mut visits = 1u64;
    for c in 0..classes.count() {
        let row = stacked_directs(alloc, classes, c)?;
        visits = visits.checked_add(row.len() as u64).ok_or(NoMemory)?;
        stacked.push(row)?;
    }
    Ok(Directs { stacked, visits })
}

fn all_parents(alloc: Global, classes: &Classes) -> Result<Vec<Option<u32>>, NoMemory>
    ensures { IfOk result (λ v. v.items ≡
        tabulate (spec.parent_of classes.now) (length classes.now.classes)) }
{
    let mut parents = Vec::new(alloc);
    for c in 0..classes.count() {
        parents.push(parent_of(classes, c))?;
    }
    Ok(parents)
}

fn all_supers(alloc: Global, classes: &Classes) -> Result<Vec<ClassSet>, NoMemory>
    ensures { IfOk result (λ v. v.items ≡
        tabulate (spec.supers classes.now) (length classes.now.classes)) }
{
    let directs = all_directs(alloc, classes)?;
    let mut supers = Vec::new(alloc);
    for c in 0..classes.count() {
        supers.push(visit(alloc, &directs.stacked, c, directs.visits)?)?;
    }
    Ok(supers)
}

fn all_superclasses(
    alloc: Global,
    classes: &Classes,
    parents: &[Option<u32>],
) -> Result<Vec<Items<u32>>, NoMemory>
    requires { parents.now ≡ tabulate (spec.parent_of classes.now) (length classes.now.classes) }
    ensures { IfOk result (λ v. v.items ≡
        tabulate (spec.superclasses classes.now) (length classes.now.classes)) }
{
    let mut superclasses = Vec::new(alloc);
    for c in 0..classes.count() {
        superclasses.push(climb(alloc, parents, c, classes.count())?)?;
    }
    Ok(superclasses)
}

fn field_indexes(alloc: Global, files: &[ClassFile]) -> Result<Vec<Option<MemberIndex>>, NoMemory>
    ensures { IfOk result (λ v. AllIndexed (λ f. f.fields) files.now v.items) }
{
    let mut indexes = Vec::new(alloc);
    for file in files {
        indexes.push(index_of_many(alloc, &file.pool, &file.fields)?)?;
    }
    Ok(indexes)
}

fn method_indexes(alloc: Global, files: &[ClassFile]) -> Result<Vec<Option<MemberIndex>>, NoMemory>
    ensures { IfOk result (λ v. AllIndexed (λ f. f.methods) files.now v.items) }
{
    let mut indexes = Vec::new(alloc);
    for file in files {
        indexes.push(index_of_many(alloc, &file.pool, &file.methods)?)?;
    }
    Ok(indexes)
}

impl Hierarchy {
    /// What is above each class of the program.
    pub fn new(alloc: Global, classes: Classes) -> Result<Self, NoMemory>
        ensures { IfOk result (λ h. h ≡ classes) }
    {
        let parents = all_parents(alloc, &classes)?;
        let supers = all_supers(alloc, &classes)?;
        let superclasses = all_superclasses(alloc, &classes, &parents)?;
        let fields = field_indexes(alloc, classes.files())?;
        let methods = method_indexes(alloc, classes.files())?;
        Ok(Hierarchy {
            alloc,
            classes,
            parents,
            supers,
            superclasses,
            fields,
            methods,
        })
    }

    /// The classes of the program.
    pub fn classes(&self) -> &Classes
        ensures { result.now ≡ self.now }
    {
        &self.classes
    }

    /// The superclass of a class, where the program has it.
    pub fn parent(&self, class: u32) -> Option<u32>
        ensures { result ≡ spec.parent_of self.now class }
    {
        parent_at(&self.parents, class)
    }

    /// The class, its superclasses and its superinterfaces, in the order in which a field is looked for (JVMS 5.4.3.2).
    pub fn supers(&self, class: u32) -> &[u32]
        ensures { result.now ≡ spec.supers self.now class }
    {
        above_in(&self.supers, class)
    }

    /// The class and its superclasses, from the class up.
    pub fn superclasses(&self, class: u32) -> &[u32]
        ensures { result.now ≡ spec.superclasses self.now class }
    {
        row_at(&self.superclasses, class)
    }

    /// The index of the field of this key in the file of a class, the first if there are several.
    pub fn field_index(&self, class: u32, file: &ClassFile, key: MemberKey) -> Option<usize>
        requires { slice_get self.now.classes class ≡ Some file.now }
        ensures { result ≡ members.index_of file.now.pool (key_of key.entry) file.now.fields }
    {
        match find_in(self.alloc, &self.fields, class, key) {
            Some(found) => found,
            None => index_of(&file.pool, key, &file.fields),
        }
    }

    /// The index of the method of this key in the file of a class, the first if there are several.
    pub fn method_index(&self, class: u32, file: &ClassFile, key: MemberKey) -> Option<usize>
        requires { slice_get self.now.classes class ≡ Some file.now }
        ensures { result ≡ members.index_of file.now.pool (key_of key.entry) file.now.methods }
    {
        match find_in(self.alloc, &self.methods, class, key) {
            Some(found) => found,
            None => index_of(&file.pool, key, &file.methods),
        }
    }

    /// Whether a class is the other or below it, in constant time.
    pub fn is_below(&self, class: u32, other: u32) -> bool
        ensures { result ≡ spec.is_below self.now class other }
    {
        is_above_in(&self.supers, class, other)
    }
}
