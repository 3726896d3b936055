//! The order in which classes are initialized (JVMS 5.5, 2.9.2; the order: own).

ghost use Rattle.std.specs.Prelude.{◌≡◌, ◌++◌, reverse, IfOk, OnOk};
ghost use Rattle.std.specs.List.{fold};
ghost use Rattle.std.specs.Option.{option_to_list};
ghost use Rattle.ref_model.specs.Opening as spec;
ghost use Rattle.startup.specs.Order as order;

use items::NoMemory;
use link_resolution::{ClassSet, Hierarchy, MemberKey};
use link_rules::MemberPlace;
use link_tables::Tables;
use std::alloc::Global;

/// `<clinit>` and `()V`.
const INITIALIZER_NAME: [u16; 8] = [60, 99, 108, 105, 110, 105, 116, 62];

const INITIALIZER_DESCRIPTOR: [u16; 3] = [40, 41, 86];

// Adds a class after the others, unless it is among them.
fn add_class(order: &mut ClassSet, class: u32) -> Result<(), NoMemory>
    ensures { OnOk result (order.new ≡ spec.with_class order.old class) }
{
    if order.has(class) {
        return Ok(());
    }
    order.add(class)
}

fn add_classes(order: &mut ClassSet, classes: &[u32]) -> Result<(), NoMemory>
    ensures { OnOk result (order.new ≡ fold spec.with_class order.old classes.now) }
{
    for class in classes {
        add_class(order, *class)?;
    }
    Ok(())
}

// Adds a class and those of its superclasses that aren't there, from the topmost down.
fn add_with_superclasses(
    alloc: Global,
    order: &mut ClassSet,
    hierarchy: &Hierarchy,
    class: u32,
) -> Result<(), NoMemory>
    ensures { OnOk result (order.new ≡ spec.with_superclasses hierarchy.now order.old class) }
{
    let mut line = Vec::from_slice(alloc, hierarchy.superclasses(class))?;
    line.reverse();
    add_classes(order, &line)
}

// All classes, each after its superclass.
fn class_order(alloc: Global, hierarchy: &Hierarchy) -> Result<ClassSet, NoMemory>
    ensures { IfOk result (λ order. order ≡ spec.class_order hierarchy.now) }
{
    let mut order = ClassSet::new(alloc);
    for class in 0..hierarchy.classes().count() {
        add_with_superclasses(alloc, &mut order, hierarchy, class)?;
    }
    Ok(order)
}

fn static_at(tables: &Tables, at: MemberPlace) -> Result<Option<u32>, NoMemory>
    ensures { IfOk result (λ n. n ≡ spec.static_at tables.now.program at) }
{
    if tables.hierarchy().has_static_method(at) {
        let number = tables.method_number(at)?;
        Ok(Some(number))
    } else {
        Ok(None)
    }
}

fn initializer_place(hierarchy: &Hierarchy, class: u32) -> Option<MemberPlace>
    ensures { result ≡ order.initializer_place hierarchy.now class }
{
    let key = MemberKey {
        name: &INITIALIZER_NAME,
        descriptor: &INITIALIZER_DESCRIPTOR,
    };
    hierarchy.declared_method(key, class)
}

// The number of the initializer of a class.
fn initializer_of(tables: &Tables, class: u32) -> Result<Option<u32>, NoMemory>
    ensures { IfOk result (λ n. n ≡ spec.initializer_of tables.now.program class) }
{
    match initializer_place(tables.hierarchy(), class) {
        Some(at) => static_at(tables, at),
        None => Ok(None),
    }
}

fn add_initializer(initializers: &mut Vec<u32>, tables: &Tables, class: u32) -> Result<(), NoMemory>
    ensures { OnOk result (initializers.new.items ≡ initializers.old.items
        ++ option_to_list (spec.initializer_of tables.now.program class)) }
{
    if let Some(n) = initializer_of(tables, class)? {
        initializers.push(n)?;
    }
    Ok(())
}

/// The initializers of classes, in the order in which they run.
pub(crate) fn initializers(alloc: Global, tables: &Tables) -> Result<Vec<u32>, NoMemory>
    ensures { IfOk result (λ v. v.items ≡ spec.initializers tables.now.program) }
{
    let order = class_order(alloc, tables.hierarchy())?;
    let mut initializers = Vec::new(alloc);
    for class in order.as_slice() {
        add_initializer(&mut initializers, tables, *class)?;
    }
    Ok(initializers)
}
