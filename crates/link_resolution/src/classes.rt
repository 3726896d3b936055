//! The classes of a program, and each by its name.

ghost use Rattle.std.specs.Prelude.{◌≡◌, false, ◌+◌, ◌<◌, ◌^◌, ◌++◌, drop, length, IfOk, slice_get};
ghost use Rattle.std.specs.Option.{option_copied};
ghost use Rattle.link_rules.specs.Program.{Program, class_named, own_name as name_of};
ghost use Rattle.link_rules.specs.Program as spec;
ghost use Rattle.class_grammar.specs.Names.{object_class};
ghost use Rattle.class_grammar.specs.Text.{same_text};
ghost use Rattle.link_resolution.specs.ClassNames.{NamesAll};

use crate::text_numbers::TextNumbers;
use class_grammar::class_name_at;
use class_model::{ACC_ABSTRACT, ACC_FINAL, ACC_INTERFACE, ACC_PUBLIC, ClassFile};
use items::NoMemory;
use std::alloc::Global;
use std::marker::Model;

/// The name of the class of all objects.
const OBJECT_CLASS: [u16; 16] = [
    b'j' as u16,
    b'a' as u16,
    b'v' as u16,
    b'a' as u16,
    b'/' as u16,
    b'l' as u16,
    b'a' as u16,
    b'n' as u16,
    b'g' as u16,
    b'/' as u16,
    b'O' as u16,
    b'b' as u16,
    b'j' as u16,
    b'e' as u16,
    b'c' as u16,
    b't' as u16,
];

/// The classes of a program in their order, the built-in ones first. A class is known by its index.
#[derive(Drop)]
pub struct Classes {
    files: Vec<ClassFile>,
    built_in: u32,
    by_name: TextNumbers,
}

impl Model for Classes {
    ghost use Rattle.link_rules.specs.Program.{Program};

    ghost Value = { Program };

    ghost use Rattle.link_resolution.specs.Classes.{program_of, IsNamed};

    ghost view = { program_of };

    ghost invariant = { IsNamed };
}

/// The name of a class, as its file has it.
pub fn own_name(file: &ClassFile) -> &[u16]
    ensures { result.now ≡ name_of file.now }
{
    class_name_at(&file.pool, file.own).unwrap_or(&[])
}

// One list and then the other.
fn joined(front: Vec<ClassFile>, back: Vec<ClassFile>) -> Result<Vec<ClassFile>, NoMemory>
    ensures { IfOk result (λ v. v.items ≡ front.items ++ back.items) }
{
    let mut all = front;
    for file in back {
        all.push(file)?;
    }
    Ok(all)
}

// Each class by its name; of several with one name, the first.
fn by_name(alloc: Global, files: &[ClassFile]) -> Result<TextNumbers, NoMemory>
    requires { length files.now < 2 ^ 32 }
    ensures { IfOk result (λ m. NamesAll files.now m) }
{
    let mut names = TextNumbers::new(alloc);
    for (index, file) in files.iter().enumerate() {
        names.add(alloc, own_name(file), index as u32)?;
    }
    Ok(names)
}

impl Classes {
    /// The built-in classes and then those of files. Past 2^32 of them memory counts as run out.
    pub fn new(
        alloc: Global,
        built_in: Vec<ClassFile>,
        files: Vec<ClassFile>,
    ) -> Result<Self, NoMemory>
        ensures { IfOk result (λ classes. classes ≡ spec.program built_in.items files.items) }
    {
        let count = u32::try_from(built_in.len()).map_err(|_| NoMemory)?;
        let files = joined(built_in, files)?;
        if u32::try_from(files.len()).is_err() {
            return Err(NoMemory);
        }
        let by_name = by_name(alloc, &files)?;
        Ok(Classes {
            files,
            built_in: count,
            by_name,
        })
    }

    /// How many classes there are.
    pub fn count(&self) -> u32
        ensures { result ≡ length self.now.classes }
    {
        self.files.len() as u32
    }

    /// The files of the classes.
    pub fn files(&self) -> &[ClassFile]
        ensures classes { result.now ≡ self.now.classes }
        ensures few { length result.now < 2 ^ 32 }
    {
        &self.files
    }

    /// The files of the classes that aren't built in.
    pub fn from_files(&self) -> &[ClassFile]
        ensures { result.now ≡ drop self.now.built_in self.now.classes }
    {
        match self.files.split_at_checked(self.built_in as usize) {
            Some((_, files)) => files,
            None => &[],
        }
    }

    /// The file of a class. `None`: there is no such class.
    pub fn file(&self, class: u32) -> Option<&ClassFile>
        ensures { option_copied result ≡ slice_get self.now.classes class }
    {
        self.files.get(class as usize)
    }

    /// The class of all objects, `java/lang/Object`.
    pub fn object(&self) -> Option<u32>
        ensures { result ≡ class_named self.now object_class }
    {
        self.class_named(&OBJECT_CLASS)
    }

    /// Whether a name is that of the class of all objects.
    pub fn is_object_name(&self, name: &[u16]) -> bool
        ensures { result ≡ same_text name.now object_class }
    {
        name == OBJECT_CLASS.as_slice()
    }

    /// Whether a class is an interface.
    pub fn is_interface(&self, class: u32) -> bool
        ensures { result ≡ spec.is_interface self.now class }
    {
        self.has_flag(class, ACC_INTERFACE)
    }

    /// Whether a class is abstract.
    pub fn is_abstract(&self, class: u32) -> bool
        ensures { result ≡ spec.is_abstract self.now class }
    {
        self.has_flag(class, ACC_ABSTRACT)
    }

    /// Whether a class is final.
    pub fn is_final(&self, class: u32) -> bool
        ensures { result ≡ spec.is_final self.now class }
    {
        self.has_flag(class, ACC_FINAL)
    }

    fn has_flag(&self, class: u32, flag: u16) -> bool
        ensures { result ≡ spec.class_at (λ f. spec.has_flag flag f.flags) false self.now class }
    {
        match self.file(class) {
            Some(file) => file.flags & flag == flag,
            None => false,
        }
    }

    /// Whether a class comes from a file.
    pub fn is_from_file(&self, class: u32) -> bool
        ensures { result ≡ spec.is_from_file self.now class }
    {
        self.built_in <= class
    }

    /// Whether a class is internal: a built-in one that isn't public, which only the other built-in classes may name.
    pub fn is_internal(&self, class: u32) -> bool
        ensures { result ≡ spec.is_internal self.now class }
    {
        match self.file(class) {
            Some(file) => class < self.built_in && file.flags & ACC_PUBLIC != ACC_PUBLIC,
            None => false,
        }
    }

    /// The class of this name, the first if there are several.
    pub fn class_named(&self, name: &[u16]) -> Option<u32>
        ensures { result ≡ class_named self.now name.now }
    {
        self.by_name.number(name)
    }
}
