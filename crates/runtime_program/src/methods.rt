//! Which methods are native, and which are left by no local instruction (JVMS 4.6).

ghost use Rattle.std.specs.Prelude.{◌≡◌, false, codes, length, IfOk};
ghost use Rattle.link_resolution.specs.Tables.{tabulate};
ghost use Rattle.class_grammar.specs.Text.{same_text};
ghost use Rattle.link_rules.specs.Program.{class_at, own_name as name_of};
ghost use Rattle.ref_model.specs.Members as spec;
ghost use Rattle.ref_model.specs.Frames as frames;
ghost use Rattle.invocation.specs.Places.{is_open};
ghost use Rattle.runtime_program.specs.Places.{native_of_place};

use class_grammar::is_same;
use class_model::{ClassFile, Member};
use items::NoMemory;
use lib_table::{Native, native_of};
use link_model::{MethodInfo, is_initializer, is_synchronized};
use link_resolution::{key_in, own_name};
use link_rules::MemberPlace;
use link_tables::Tables;
use std::alloc::Global;

fn native_of_member(file: &ClassFile, member: &Member) -> Option<Native>
    ensures { result ≡ spec.native_of_member file.now member.now }
{
    let key = key_in(&file.pool, member);
    native_of(own_name(file), key.name, key.descriptor)
}

fn native_in(index: usize, file: &ClassFile) -> Option<Native>
    ensures { result ≡ spec.native_in index file.now }
{
    native_of_member(file, file.methods.get(index)?)
}

// What the machine does in place of the code of a method, by its place.
fn native_at_place(tables: &Tables, at: MemberPlace) -> Option<Native>
    ensures { result ≡ native_of_place tables.now at }
{
    native_in(at.index, tables.hierarchy().classes().file(at.class)?)
}

// What the machine does in place of the code of a method.
fn native_at(tables: &Tables, n: u32) -> Result<Option<Native>, NoMemory>
    ensures { IfOk result (λ native. native ≡ spec.native_at tables.now n) }
{
    match tables.method_place(n)? {
        Some(at) => Ok(native_at_place(tables, at)),
        None => Ok(None),
    }
}

/// What the machine does in place of the code of all methods, by their numbers.
pub(crate) fn all_natives(alloc: Global, tables: &Tables) -> Result<Vec<Option<Native>>, NoMemory>
    ensures { IfOk result (λ v. v.items
        ≡ tabulate (spec.native_at tables.now) (length tables.now.methods)) }
{
    let mut natives = Vec::new(alloc);
    for n in 0..tables.method_count() {
        natives.push(native_at(tables, n)?)?;
    }
    Ok(natives)
}

// Whether a class is jvt.Native.
fn is_native_class(tables: &Tables, class: u32) -> bool
    ensures { result ≡ class_at (λ f. same_text (name_of f) (codes "jvt/Native")) false
        tables.now.program class }
{
    match tables.hierarchy().classes().file(class) {
        Some(file) => is_same(own_name(file), b"jvt/Native"),
        None => false,
    }
}

/// Whether a method is jvt.Native.hold, whose frame pins its thread.
pub(crate) fn is_hold(tables: &Tables, method: &MethodInfo) -> bool
    ensures { result ≡ spec.is_hold tables.now method.now }
{
    if !is_same(&method.name, b"hold") {
        return false;
    }
    is_native_class(tables, method.class)
}

// Whether others see that a frame of a method is left.
fn is_guarded(tables: &Tables, method: &MethodInfo) -> bool
    ensures { result ≡ frames.is_guarded tables.now method.now }
{
    is_synchronized(method) || is_hold(tables, method)
}

// Whether a return from the method of a number is no local instruction, wherever its frame lies. `false`: also where there is none.
fn open_at(tables: &Tables, n: u32) -> bool
    ensures { result ≡ is_open tables.now n }
{
    match tables.method(n) {
        Some(method) => is_initializer(method) || is_guarded(tables, method),
        None => false,
    }
}

/// Whether a return from each method is no local instruction, wherever its frame lies, by their numbers.
pub(crate) fn all_open(alloc: Global, tables: &Tables) -> Result<Vec<bool>, NoMemory>
    ensures { IfOk result (λ v. v.items
        ≡ tabulate (is_open tables.now) (length tables.now.methods)) }
{
    let mut flags = Vec::new(alloc);
    for n in 0..tables.method_count() {
        flags.push(open_at(tables, n))?;
    }
    Ok(flags)
}
