//! The fields and methods of a program by number (JVMS 4.5, 4.6).

ghost use Rattle.std.specs.Prelude.{◌≡◌, ◌++◌, OnOk, IfOk};
ghost use Rattle.link_model.specs.Infos as spec;

use crate::codes::Codes;
use crate::kinds::{kind_of, signature_of};
use class_model::{ClassFile, Const, Member};
use items::{Items, NoMemory};
use link_model::{FieldInfo, MethodInfo};
use link_resolution::{Hierarchy, key_in};
use std::alloc::Global;

fn field_info(
    alloc: Global,
    class: u32,
    pool: &[Const],
    field: &Member,
) -> Result<FieldInfo, NoMemory>
    ensures { IfOk result (λ info. info ≡ spec.field_info class pool.now field.now) }
{
    let key = key_in(pool, field);
    Ok(FieldInfo {
        class,
        flags: field.flags,
        name: Items::from(Vec::from_slice(alloc, key.name)?),
        kind: kind_of(alloc, key.descriptor)?,
    })
}

fn method_info(
    alloc: Global,
    class: u32,
    pool: &[Const],
    method: &Member,
) -> Result<MethodInfo, NoMemory>
    ensures { IfOk result (λ info. info ≡ spec.method_info class pool.now method.now) }
{
    let key = key_in(pool, method);
    Ok(MethodInfo {
        class,
        flags: method.flags,
        name: Items::from(Vec::from_slice(alloc, key.name)?),
        signature: signature_of(alloc, key.descriptor)?,
    })
}

fn add_fields(
    alloc: Global,
    class: u32,
    file: &ClassFile,
    fields: &mut Vec<FieldInfo>,
) -> Result<(), NoMemory>
    ensures { OnOk result (fields.new.items ≡
        fields.old.items ++ spec.fields_in (class, file.now)) }
{
    for field in file.fields.iter() {
        fields.push(field_info(alloc, class, &file.pool, field)?)?;
    }
    Ok(())
}

fn add_methods(
    alloc: Global,
    class: u32,
    file: &ClassFile,
    methods: &mut Vec<MethodInfo>,
) -> Result<(), NoMemory>
    ensures { OnOk result (methods.new.items ≡
        methods.old.items ++ spec.methods_in (class, file.now)) }
{
    for method in file.methods.iter() {
        methods.push(method_info(alloc, class, &file.pool, method)?)?;
    }
    Ok(())
}

fn add_codes(alloc: Global, file: &ClassFile, codes: &mut Codes) -> Result<(), NoMemory>
    ensures { OnOk result (codes.new ≡ codes.old ++ spec.codes_in file.now) }
{
    for method in file.methods.iter() {
        codes.add(alloc, method)?;
    }
    Ok(())
}

/// The fields, in the order of their numbers.
pub fn all_fields(alloc: Global, world: &Hierarchy) -> Result<Vec<FieldInfo>, NoMemory>
    ensures { IfOk result (λ v. v.items ≡ spec.fields_of world.now) }
{
    let mut fields = Vec::new(alloc);
    for (class, file) in world.classes().files().iter().enumerate() {
        add_fields(alloc, class as u32, file, &mut fields)?;
    }
    Ok(fields)
}

/// The methods, in the order of their numbers.
pub fn all_methods(alloc: Global, world: &Hierarchy) -> Result<Vec<MethodInfo>, NoMemory>
    ensures { IfOk result (λ v. v.items ≡ spec.methods_of world.now) }
{
    let mut methods = Vec::new(alloc);
    for (class, file) in world.classes().files().iter().enumerate() {
        add_methods(alloc, class as u32, file, &mut methods)?;
    }
    Ok(methods)
}

/// The code of each method, by the method's number.
pub fn all_codes(alloc: Global, world: &Hierarchy) -> Result<Codes, NoMemory>
    ensures { IfOk result (λ codes. codes ≡ spec.codes_of world.now) }
{
    let mut codes = Codes::new(alloc);
    for file in world.classes().files() {
        add_codes(alloc, file, &mut codes)?;
    }
    Ok(codes)
}
