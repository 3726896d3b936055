//! The class file of a declaration (JVMS 4.1).

ghost use Rattle.std.specs.Prelude.{◌≡◌, IfOk, map};
ghost use Rattle.lib_table.specs.Declarations.{class_of, name_of, parent_of, field_of, method_of, body_of, code_of};
ghost use Rattle.lib_table.specs.Build as spec;
ghost use Rattle.lib_table.specs.Pool as pools;

use crate::code::{code_body, single};
use crate::declarations::{
    ClassDeclaration, FieldDeclaration, MethodBody, MethodCode, MethodDeclaration,
};
use crate::pool::ConstantPool;
use class_model::{Attribute, Body, ClassFile, Member};
use items::{Boxed, Items, NoMemory};
use std::alloc::Global;

fn code_attribute(
    alloc: Global,
    pool: &mut ConstantPool,
    code: &MethodCode,
) -> Result<Items<Attribute>, NoMemory>
    ensures { IfOk result (λ attributes. (attributes, pool.new) ≡
        spec.code_attribute (code_of code.now) pool.old) }
{
    let name = pool.text("Code")?;
    let code = Boxed::new(alloc, code_body(alloc, pool, code)?)?;
    let body = Body::Code(code);
    single(alloc, Attribute { name, body })
}

fn attributes(
    alloc: Global,
    pool: &mut ConstantPool,
    body: &MethodBody,
) -> Result<Items<Attribute>, NoMemory>
    ensures { IfOk result (λ attributes. (attributes, pool.new) ≡
        spec.attributes (body_of body.now) pool.old) }
{
    match body {
        MethodBody::Abstract => Ok(Items::new(alloc)),
        MethodBody::Native(_) => Ok(Items::new(alloc)),
        MethodBody::Code(code) => code_attribute(alloc, pool, code),
    }
}

fn field(
    alloc: Global,
    pool: &mut ConstantPool,
    field: &FieldDeclaration,
) -> Result<Member, NoMemory>
    ensures { IfOk result (λ member. (member, pool.new) ≡
        spec.field (field_of field.now) pool.old) }
{
    let name = pool.text(field.name)?;
    let descriptor = pool.text(field.descriptor)?;
    Ok(Member {
        flags: field.flags,
        name,
        descriptor,
        attributes: Items::new(alloc),
    })
}

fn method(
    alloc: Global,
    pool: &mut ConstantPool,
    method: &MethodDeclaration,
) -> Result<Member, NoMemory>
    ensures { IfOk result (λ member. (member, pool.new) ≡
        spec.method (method_of method.now) pool.old) }
{
    let name = pool.text(method.name)?;
    let descriptor = pool.text(method.descriptor)?;
    let attributes = attributes(alloc, pool, &method.body)?;
    Ok(Member {
        flags: method.flags,
        name,
        descriptor,
        attributes,
    })
}

// The index of the superclass, which is 0 for Object (JVMS 4.1).
fn parent(pool: &mut ConstantPool, name: &Option<&'static str>) -> Result<u16, NoMemory>
    ensures { IfOk result (λ index. (index, pool.new) ≡
        spec.parent (parent_of name.now) pool.old) }
{
    match name {
        Some(name) => pool.class(name),
        None => Ok(0),
    }
}

fn interfaces(
    alloc: Global,
    pool: &mut ConstantPool,
    names: &[&'static str],
) -> Result<Items<u16>, NoMemory>
    ensures { IfOk result (λ indices. (indices, pool.new) ≡
        spec.all pools.class (map name_of names.now) pool.old) }
{
    let mut indices = Vec::new(alloc);
    for name in names {
        indices.push(pool.class(name)?)?;
    }
    Ok(indices.into())
}

fn fields(
    alloc: Global,
    pool: &mut ConstantPool,
    declarations: &[FieldDeclaration],
) -> Result<Items<Member>, NoMemory>
    ensures { IfOk result (λ fields. (fields, pool.new) ≡
        spec.all spec.field (map field_of declarations.now) pool.old) }
{
    let mut fields = Vec::new(alloc);
    for declaration in declarations {
        fields.push(field(alloc, pool, declaration)?)?;
    }
    Ok(fields.into())
}

fn methods(
    alloc: Global,
    pool: &mut ConstantPool,
    declarations: &[MethodDeclaration],
) -> Result<Items<Member>, NoMemory>
    ensures { IfOk result (λ methods. (methods, pool.new) ≡
        spec.all spec.method (map method_of declarations.now) pool.old) }
{
    let mut methods = Vec::new(alloc);
    for declaration in declarations {
        methods.push(method(alloc, pool, declaration)?)?;
    }
    Ok(methods.into())
}

/// The class file, of Java 17 (JVMS 4.1, table 4.1-A).
pub fn class_file(alloc: Global, class: &ClassDeclaration) -> Result<ClassFile, NoMemory>
    ensures { IfOk result (λ file. file ≡ spec.class_file (class_of class.now)) }
{
    let mut pool = ConstantPool::new(alloc)?;
    let own = pool.class(class.name)?;
    let parent = parent(&mut pool, &class.parent)?;
    let interfaces = interfaces(alloc, &mut pool, class.interfaces)?;
    let fields = fields(alloc, &mut pool, class.fields)?;
    let methods = methods(alloc, &mut pool, class.methods)?;
    Ok(ClassFile {
        minor: 0,
        major: 61,
        pool: pool.into_entries(),
        flags: class.flags,
        own,
        parent,
        interfaces,
        fields,
        methods,
        attributes: Items::new(alloc),
    })
}
