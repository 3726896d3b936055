//! The built-in classes as class files.

ghost use Rattle.std.specs.Prelude.{◌≡◌, [], ◌∷◌, ◌++◌, All, IfOk, OnOk, map};
ghost use Rattle.std.specs.List.{flat_map};
ghost use Rattle.lib_table.specs.Declarations.{class_of, group_of};
ghost use Rattle.lib_table.specs.Build as spec;
ghost use Rattle.lib_table.specs.Table.{groups};
ghost use Rattle.lib_table.specs.Library.{library};
ghost use Rattle.lib_table.specs.Spelled.{IsSpelled};

use crate::build::class_file;
use crate::declarations::ClassDeclaration;
use crate::objects::object_classes;
use crate::system::system_classes;
use crate::texts::text_classes;
use crate::thread_builders::builder_classes;
use crate::threads::thread_classes;
use crate::throwables::throwable_classes;
use class_model::ClassFile;
use items::NoMemory;
use std::alloc::Global;

/// The declarations of the built-in classes in their order, by subject.
pub fn declaration_groups() -> [&'static [ClassDeclaration]; 6]
    ensures { map group_of result ≡ groups }
{
    [
        object_classes(),
        text_classes(),
        system_classes(),
        thread_classes(),
        builder_classes(),
        throwable_classes(),
    ]
}

fn push_all(
    alloc: Global,
    files: &mut Vec<ClassFile>,
    declarations: &[ClassDeclaration],
) -> Result<(), NoMemory>
    ensures { OnOk result (files.new.items ≡
        files.old.items ++ map spec.class_file (map class_of declarations.now)) }
{
    for declaration in declarations {
        files.push(class_file(alloc, declaration)?)?;
    }
    Ok(())
}

/// The built-in classes in their order, `java.lang.Object` first. Each has bytes.
pub fn classes(alloc: Global) -> Result<Vec<ClassFile>, NoMemory>
    ensures exact { IfOk result (λ files. files.items ≡ library) }
    ensures spelled { IfOk result (λ files. All IsSpelled files.items) }
{
    let mut files = Vec::new(alloc);
    for group in &declaration_groups() {
        push_all(alloc, &mut files, group)?;
    }
    Ok(files)
}
