//! The names of the class and of the method where a program isn't well typed.

ghost use Rattle.std.specs.Prelude.{◌≡◌, ◌++◌, [], IfOk, slice_get};
ghost use Rattle.std.specs.Option.{option_map_or};
ghost use Rattle.program_files.specs.Linking as spec;

use class_grammar::text_at;
use class_model::{ClassFile, Member};
use class_world::World;
use link_resolution::own_name;
use std::alloc::{AllocError, Global};

/// The name of the class with this number.
pub fn class_text(alloc: Global, world: &World, class: u32) -> Result<Vec<u16>, AllocError>
    ensures { IfOk result (λ v. v.items ≡ spec.class_text world.now class) }
{
    match world.file(class) {
        Some(file) => Vec::from_slice(alloc, own_name(file)),
        None => Ok(Vec::new(alloc)),
    }
}

// The name of a member, and after it its descriptor.
fn member_text(alloc: Global, file: &ClassFile, member: &Member) -> Result<Vec<u16>, AllocError>
    ensures { IfOk result (λ v. v.items ≡ spec.member_text file.now member.now) }
{
    let mut text = Vec::from_slice(alloc, text_at(&file.pool, member.name).unwrap_or(&[]))?;
    text.extend_from_slice(text_at(&file.pool, member.descriptor).unwrap_or(&[]))?;
    Ok(text)
}

// The same of the method at an index of a class.
fn method_at(alloc: Global, file: &ClassFile, index: usize) -> Result<Vec<u16>, AllocError>
    ensures { IfOk result (λ v. v.items ≡
        option_map_or (spec.member_text file.now) (slice_get file.now.methods index) []) }
{
    match file.methods.get(index) {
        Some(method) => member_text(alloc, file, method),
        None => Ok(Vec::new(alloc)),
    }
}

/// The name of the method with this number, counted over the classes in their order, and after it its descriptor.
pub fn method_text(alloc: Global, classes: &[ClassFile], n: u32) -> Result<Vec<u16>, AllocError>
    ensures { IfOk result (λ v. v.items ≡ spec.method_text classes.now n) }
{
    let mut rest = classes;
    let mut index = n as usize;
    while let Some((file, behind)) = rest.split_first() {
        let count = file.methods.len();
        if index < count {
            return method_at(alloc, file, index);
        }
        index -= count;
        rest = behind;
    }
    Ok(Vec::new(alloc))
}
