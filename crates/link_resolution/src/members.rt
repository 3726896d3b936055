//! The fields and methods that classes declare (JVMS 4.5, 4.6).

ghost use Rattle.std.specs.Prelude.{◌≡◌};
ghost use Rattle.std.specs.Option.{option_copied};
ghost use Rattle.link_rules.specs.Program as program;
ghost use Rattle.link_rules.specs.Members as spec;
ghost use Rattle.class_grammar.specs.Pool.{has_text, is_text};
ghost use Rattle.link_resolution.specs.Keys.{key_of};

use crate::hierarchy::Hierarchy;
use class_grammar::text_at;
use class_model::{
    ACC_ABSTRACT, ACC_FINAL, ACC_NATIVE, ACC_PRIVATE, ACC_PUBLIC, ACC_STATIC, Const, Member,
};
use link_rules::MemberPlace;

/// The name and the descriptor of a field or a method.
#[derive(Clone, Copy)]
pub struct MemberKey<'a> {
    pub name: &'a [u16],
    pub descriptor: &'a [u16],
}

/// Whether the flags have this one.
pub fn has_flag(flags: u16, flag: u16) -> bool
    ensures { result ≡ program.has_flag flag flags }
{
    flags & flag == flag
}

// Whether the text at an index is this one.
fn is_text_at(pool: &[Const], index: u16, text: &[u16]) -> bool
    ensures { result ≡ has_text (is_text text.now) pool.now index }
{
    match text_at(pool, index) {
        Some(units) => units == text,
        None => false,
    }
}

fn has_key(pool: &[Const], key: MemberKey, member: &Member) -> bool
    ensures { result ≡ spec.has_key pool.now (key_of key.entry) member.now }
{
    is_text_at(pool, member.name, key.name) && is_text_at(pool, member.descriptor, key.descriptor)
}

/// The index of the member of this key, the first if there are several.
pub fn index_of(pool: &[Const], key: MemberKey, members: &[Member]) -> Option<usize>
    ensures { result ≡ spec.index_of pool.now (key_of key.entry) members.now }
{
    members.iter().position(|member| has_key(pool, key, member))
}

/// Whether a member is private.
pub fn is_private(member: &Member) -> bool
    ensures { result ≡ spec.is_private member.now }
{
    has_flag(member.flags, ACC_PRIVATE)
}

/// Whether a member is static.
pub fn is_static(member: &Member) -> bool
    ensures { result ≡ spec.is_static member.now }
{
    has_flag(member.flags, ACC_STATIC)
}

/// Whether a member is final.
pub fn is_final(member: &Member) -> bool
    ensures { result ≡ spec.is_final_member member.now }
{
    has_flag(member.flags, ACC_FINAL)
}

/// Whether a method is abstract.
pub fn is_abstract(method: &Member) -> bool
    ensures { result ≡ spec.is_abstract_method method.now }
{
    has_flag(method.flags, ACC_ABSTRACT)
}

/// Whether a method is native.
pub fn is_native(method: &Member) -> bool
    ensures { result ≡ spec.is_native method.now }
{
    has_flag(method.flags, ACC_NATIVE)
}

/// Whether subclasses inherit a member and may override it: it is neither private nor static (JVMS 5.4.5).
pub fn is_open(member: &Member) -> bool
    ensures { result ≡ spec.is_open member.now }
{
    !is_private(member) && !is_static(member)
}

/// Whether a method is a public one of instances.
pub fn is_public_instance(method: &Member) -> bool
    ensures { result ≡ spec.is_public_instance method.now }
{
    has_flag(method.flags, ACC_PUBLIC) && !is_static(method)
}

impl Hierarchy {
    /// Where a class declares a field of this key.
    pub fn declared_field(&self, key: MemberKey, class: u32) -> Option<MemberPlace>
        ensures { result ≡ spec.declared_field self.now (key_of key.entry) class }
    {
        let file = self.classes().file(class)?;
        let index = self.field_index(class, file, key)?;
        Some(MemberPlace { class, index })
    }

    /// Where a class declares a method of this key.
    pub fn declared_method(&self, key: MemberKey, class: u32) -> Option<MemberPlace>
        ensures { result ≡ spec.declared_method self.now (key_of key.entry) class }
    {
        let file = self.classes().file(class)?;
        let index = self.method_index(class, file, key)?;
        Some(MemberPlace { class, index })
    }

    /// The field at a place. `None`: there is none.
    pub fn field(&self, at: MemberPlace) -> Option<&Member>
        ensures { option_copied result ≡ spec.field_in self.now at }
    {
        self.classes().file(at.class)?.fields.get(at.index)
    }

    /// The method at a place. `None`: there is none.
    pub fn method(&self, at: MemberPlace) -> Option<&Member>
        ensures { option_copied result ≡ spec.method_in self.now at }
    {
        self.classes().file(at.class)?.methods.get(at.index)
    }

    /// Whether there is a static field at a place.
    pub fn has_static_field(&self, at: MemberPlace) -> bool
        ensures { result ≡ spec.has_field spec.is_static self.now at }
    {
        match self.field(at) {
            Some(field) => is_static(field),
            None => false,
        }
    }

    /// Whether there is a private field at a place.
    pub fn has_private_field(&self, at: MemberPlace) -> bool
        ensures { result ≡ spec.has_field spec.is_private self.now at }
    {
        match self.field(at) {
            Some(field) => is_private(field),
            None => false,
        }
    }

    /// Whether there is a static method at a place.
    pub fn has_static_method(&self, at: MemberPlace) -> bool
        ensures { result ≡ spec.has_method spec.is_static self.now at }
    {
        match self.method(at) {
            Some(method) => is_static(method),
            None => false,
        }
    }

    /// Whether there is a private method at a place.
    pub fn has_private_method(&self, at: MemberPlace) -> bool
        ensures { result ≡ spec.has_method spec.is_private self.now at }
    {
        match self.method(at) {
            Some(method) => is_private(method),
            None => false,
        }
    }
}
