//! The lines of a class and of its members, before the bodies of methods.

ghost use Rattle.std.specs.Prelude.{◌≡◌, OnOk};
ghost use Rattle.asm_pool.specs.Places.{IsPool};
ghost use Rattle.asm_class.specs.States.{Steps, state_of};
ghost use Rattle.asm_class.specs.ClassLines as spec;

use crate::assembly::{Assembly, MethodParts, Stage};
use crate::flags::{bits_of, has_no_code};
use crate::names::{is_field_of, is_method_of, is_object};
use crate::pooled::{class_at, code_at, names_at};
use asm_text::{Flag, LineError};
use class_model::{Attribute, Member};
use items::Items;
use std::alloc::{AllocError, Global};

/// The most items of a list whose count has two bytes.
const MOST_ITEMS: usize = 65_535;

/// Whether one more item fits a list whose count has two bytes.
pub fn has_room<T>(items: &Items<T>) -> bool
    ensures { result ≡ spec.has_room items.now }
{
    items.len() < MOST_ITEMS
}

fn after_class(name: &[u8]) -> Stage
    ensures { result ≡ spec.after_class name.now }
{
    if is_object(name) {
        Stage::Interfaces
    } else {
        Stage::Super
    }
}

fn after_method(flags: u16) -> Stage
    ensures { result ≡ spec.after_method flags }
{
    if has_no_code(flags) {
        Stage::NoCode
    } else {
        Stage::Stack
    }
}

impl Assembly {
    /// The line of the class.
    pub fn class_line(
        &mut self,
        alloc: Global,
        flags: &[Flag],
        name: &[u8],
    ) -> Result<(), LineError>
        requires { IsPool self.old.pool }
        ensures { Steps result self.new (spec.class_line flags.now name.now (state_of self.old)) }
    {
        self.class.own = class_at(alloc, &mut self.pool, name)?;
        self.class.flags = bits_of(flags);
        self.stage = after_class(name);
        Ok(())
    }

    /// The superclass.
    pub fn super_line(&mut self, alloc: Global, name: &[u8]) -> Result<(), LineError>
        requires { IsPool self.old.pool }
        ensures { Steps result self.new (spec.super_line name.now (state_of self.old)) }
    {
        self.class.parent = class_at(alloc, &mut self.pool, name)?;
        self.stage = Stage::Interfaces;
        Ok(())
    }

    /// An interface.
    pub fn implements_line(&mut self, alloc: Global, name: &[u8]) -> Result<(), LineError>
        requires { IsPool self.old.pool }
        ensures { Steps result self.new (spec.implements_line name.now (state_of self.old)) }
    {
        if !has_room(&self.class.interfaces) {
            return Err(LineError::Bad);
        }
        let index = class_at(alloc, &mut self.pool, name)?;
        self.class.interfaces.push(index)?;
        Ok(())
    }

    /// A field.
    pub fn field_line(
        &mut self,
        alloc: Global,
        flags: &[Flag],
        name: &[u8],
        descriptor: &[u8],
    ) -> Result<(), LineError>
        requires { IsPool self.old.pool }
        ensures { Steps result self.new
            (spec.field_line flags.now name.now descriptor.now (state_of self.old)) }
    {
        if !is_field_of(alloc, name, descriptor)? || !has_room(&self.class.fields) {
            return Err(LineError::Bad);
        }
        let (name, descriptor) = names_at(&mut self.pool, name, descriptor)?;
        self.class.fields.push(Member {
            flags: bits_of(flags),
            name,
            descriptor,
            attributes: Items::new(alloc),
        })?;
        self.stage = Stage::Fields;
        Ok(())
    }

    /// The line of a method.
    pub fn method_line(
        &mut self,
        alloc: Global,
        flags: &[Flag],
        name: &[u8],
        descriptor: &[u8],
    ) -> Result<(), LineError>
        requires { IsPool self.old.pool }
        ensures { Steps result self.new
            (spec.method_line flags.now name.now descriptor.now (state_of self.old)) }
    {
        if !is_method_of(alloc, name, descriptor)? || !has_room(&self.class.methods) {
            return Err(LineError::Bad);
        }
        let flags = bits_of(flags);
        let (name, descriptor) = names_at(&mut self.pool, name, descriptor)?;
        let code = code_at(&mut self.pool, flags)?;
        self.method = MethodParts {
            flags,
            name,
            descriptor,
            code,
        };
        self.stage = after_method(flags);
        Ok(())
    }

    /// The method is whole, and has these attributes.
    pub fn add_method(&mut self, attributes: Items<Attribute>) -> Result<(), AllocError>
        ensures state { OnOk result
            (state_of self.new ≡ spec.with_method attributes (state_of self.old)) }
        ensures pool { self.new.pool ≡ self.old.pool }
    {
        let MethodParts {
            flags,
            name,
            descriptor,
            ..
        } = self.method;
        self.class.methods.push(Member {
            flags,
            name,
            descriptor,
            attributes,
        })?;
        self.stage = Stage::Methods;
        Ok(())
    }
}
