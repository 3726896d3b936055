//! The constant pool with the roles of its texts, and what is wrong with an index of it (JVMS 4.4).

ghost use Rattle.std.specs.Prelude.{◌≡◌, ◌≤◌, ◌+◌, IfOk, false, not};
ghost use Rattle.std.specs.List.{sum_by};
ghost use Rattle.std.specs.Option.{option_map, option_map_or};
ghost use Rattle.descriptors.specs.States as descriptors;
ghost use Rattle.class_grammar.specs.Names as grammar;
ghost use Rattle.class_grammar.specs.Pool as entries;
ghost use Rattle.class_grammar.specs.Checks as checks;
ghost use Rattle.class_grammar.specs.declared.class_why.ClassWhy.TheVariants as whys;
ghost use Rattle.class_checks.specs.Costs as costs;
ghost use Rattle.class_checks.specs.TextRoles as spec;

use crate::names::begins_with;
use crate::text_roles::{NO_TEXT, TextRoles, roles_of};
use crate::values::{has_type, is_value};
use class_grammar::{ClassWhy, class_name_at, is_same_counted, text_at};
use class_model::{ACC_STATIC, Const, Member};
use descriptors::OPEN_PARENTHESIS;
use std::alloc::{AllocError, Global};
use std::marker::Model;
use std::sync::ledger::Ledger;
use steps::Steps;

/// A constant pool with the roles of its texts. Contracts see the list of its constants.
#[derive(Drop)]
pub struct Pool<'a> {
    constants: &'a [Const],
    roles: Vec<TextRoles>,
}

impl<'a> Model for Pool<'a> {
    ghost use Rattle.std.specs.Prelude.{◌≡◌, List, map};
    ghost use Rattle.class_model.specs.declared.constant.Const.{Const};
    ghost use Rattle.class_checks.specs.TextRoles.{entry_roles};

    ghost Value = { List Const };

    ghost view = { λ p. p.constants.now };

    ghost invariant = { λ p. p.roles.items ≡ map entry_roles p.constants.now };
}

/// This fault, unless the test has passed.
pub fn unless(passed: bool, why: ClassWhy) -> Option<ClassWhy>
    ensures { result ≡ checks.unless passed why }
{
    if passed { None } else { Some(why) }
}

// Whether the constant is a class.
fn is_class(constant: &Const) -> bool
    ensures { result ≡ checks.is_class constant.now }
{
    matches!(constant, Const::Class(_))
}

impl<'a> Pool<'a> {
    /// The pool of these constants.
    pub fn new<L: Ledger>(
        alloc: Global,
        constants: &'a [Const],
        steps: &mut Steps<L>,
    ) -> Result<Self, AllocError>
        ensures pool { IfOk result (λ pool. pool ≡ constants.now) }
        ensures cost { steps.new ≤ steps.old + sum_by costs.judging constants.now }
    {
        let roles = roles_of(alloc, constants, steps)?;
        Ok(Pool { constants, roles })
    }

    #[tactic(auto, unfolding(crate::specs::TextRoles::entry_roles))]
    fn roles(&self, index: u16) -> TextRoles
        ensures { result ≡ spec.roles_of (entries.text_at self.now index) }
    {
        self.roles
            .get(usize::from(index))
            .copied()
            .unwrap_or(NO_TEXT)
    }

    // Why an index is refused whose text, if there is one, is wrong for this reason.
    fn reason(&self, why: ClassWhy, index: u16) -> ClassWhy
        ensures { result ≡ spec.reason_at why self.now index }
    {
        match text_at(self.constants, index) {
            Some(_) => why,
            None => ClassWhy::Index,
        }
    }

    /// An index of the name of a field (JVMS 4.2.2).
    pub fn field_name_fault(&self, index: u16) -> Option<ClassWhy>
        ensures { result ≡ checks.text_fault grammar.is_field_name whys.Name self.now index }
    {
        if self.roles(index).is_field_name {
            return None;
        }
        Some(self.reason(ClassWhy::Name, index))
    }

    /// An index of the name of a method (JVMS 4.2.2).
    pub fn method_name_fault(&self, index: u16) -> Option<ClassWhy>
        ensures { result ≡ checks.text_fault grammar.is_method_name whys.Name self.now index }
    {
        if self.roles(index).is_method_name {
            return None;
        }
        Some(self.reason(ClassWhy::Name, index))
    }

    /// An index of the name of a class (JVMS 4.4.1).
    pub fn class_name_fault(&self, index: u16) -> Option<ClassWhy>
        ensures { result ≡ checks.text_fault grammar.is_class_text whys.Name self.now index }
    {
        if self.roles(index).is_class_name {
            return None;
        }
        Some(self.reason(ClassWhy::Name, index))
    }

    /// An index of the descriptor of a field (JVMS 4.5).
    pub fn field_descriptor_fault(&self, index: u16) -> Option<ClassWhy>
        ensures { result ≡ checks.text_fault descriptors.is_field whys.Descriptor self.now index }
    {
        if self.roles(index).is_field {
            return None;
        }
        Some(self.reason(ClassWhy::Descriptor, index))
    }

    /// An index of the descriptor of a method (JVMS 4.6, 4.4.9).
    pub fn method_descriptor_fault(&self, index: u16) -> Option<ClassWhy>
        ensures { result ≡ checks.text_fault descriptors.is_method whys.Descriptor self.now index }
    {
        if self.roles(index).is_method {
            return None;
        }
        Some(self.reason(ClassWhy::Descriptor, index))
    }

    /// An index of the descriptor of a field or of a method (JVMS 4.4.6).
    pub fn descriptor_fault(&self, index: u16) -> Option<ClassWhy>
        ensures { result ≡ checks.text_fault checks.is_descriptor whys.Descriptor self.now index }
    {
        let roles = self.roles(index);
        if roles.is_field || roles.is_method {
            return None;
        }
        Some(self.reason(ClassWhy::Descriptor, index))
    }

    /// An index of any text (JVMS 4.4.3).
    pub fn any_text_fault(&self, index: u16) -> Option<ClassWhy>
        ensures { result ≡ checks.any_text_fault self.now index }
    {
        unless(text_at(self.constants, index).is_some(), ClassWhy::Index)
    }

    /// An index of a class (JVMS 4.4.1).
    pub fn class_fault(&self, index: u16) -> Option<ClassWhy>
        ensures { result ≡ checks.class_fault self.now index }
    {
        match self.constants.get(usize::from(index)) {
            Some(constant) => unless(is_class(constant), ClassWhy::Index),
            None => Some(ClassWhy::Index),
        }
    }

    /// An index of the class that a handler catches, or 0 for every throwable (JVMS 4.7.3).
    pub fn catch_fault(&self, index: u16) -> Option<ClassWhy>
        ensures { result ≡ checks.catch_fault self.now index }
    {
        if index == 0 {
            return None;
        }
        self.class_fault(index)
    }

    // Whether the text at the index begins as a method's descriptor. `None`: there is no text.
    fn is_like_method(&self, index: u16) -> Option<bool>
        ensures { result ≡ option_map grammar.is_like_method (entries.text_at self.now index) }
    {
        let units = text_at(self.constants, index)?;
        Some(begins_with(OPEN_PARENTHESIS, units))
    }

    /// The index of the name in a NameAndType (JVMS 4.4.6), which its descriptor makes a field's or a method's.
    pub fn name_fault(&self, name: u16, descriptor: u16) -> Option<ClassWhy>
        ensures { result ≡ checks.name_fault self.now name descriptor }
    {
        match self.is_like_method(descriptor) {
            Some(true) => self.method_name_fault(name),
            _ => self.field_name_fault(name),
        }
    }

    /// An index of the NameAndType of a field (JVMS 4.4.2).
    pub fn of_field_fault(&self, index: u16) -> Option<ClassWhy>
        ensures { result ≡ checks.of_field_fault self.now index }
    {
        match self.constants.get(usize::from(index)) {
            Some(constant) => self.field_type_fault(constant),
            None => Some(ClassWhy::Index),
        }
    }

    // The constant as the NameAndType of a field.
    fn field_type_fault(&self, constant: &Const) -> Option<ClassWhy>
        ensures { result ≡ checks.descriptor_fault
            (λ units. not (grammar.is_like_method units)) self.now constant.now }
    {
        match constant {
            Const::NameAndType(_, descriptor) => match self.is_like_method(*descriptor) {
                Some(true) => Some(ClassWhy::Descriptor),
                _ => None,
            },
            _ => Some(ClassWhy::Index),
        }
    }

    /// An index of the NameAndType of a method (JVMS 4.4.2).
    pub fn of_method_fault(&self, index: u16) -> Option<ClassWhy>
        ensures { result ≡ checks.of_method_fault self.now index }
    {
        match self.constants.get(usize::from(index)) {
            Some(constant) => self.method_type_fault(constant),
            None => Some(ClassWhy::Index),
        }
    }

    // The constant as the NameAndType of a method.
    fn method_type_fault(&self, constant: &Const) -> Option<ClassWhy>
        ensures { result ≡ checks.descriptor_fault grammar.is_like_method self.now constant.now }
    {
        match constant {
            Const::NameAndType(_, descriptor) => match self.is_like_method(*descriptor) {
                Some(false) => Some(ClassWhy::Descriptor),
                _ => None,
            },
            _ => Some(ClassWhy::Index),
        }
    }

    // Whether the class at the index is java/lang/Object.
    fn is_object<L: Ledger>(&self, own: u16, steps: &mut Steps<L>) -> bool
        ensures test { result ≡ checks.is_object self.now own }
        ensures cost { steps.new ≤ steps.old + 16 }
    {
        match class_name_at(self.constants, own) {
            Some(name) => is_same_counted(name, b"java/lang/Object", steps),
            None => false,
        }
    }

    /// The index of the parent of the class at `own`. Object has none, and every other class has one (JVMS 4.1).
    pub fn parent_fault<L: Ledger>(
        &self,
        own: u16,
        parent: u16,
        steps: &mut Steps<L>,
    ) -> Option<ClassWhy>
        ensures fault { result ≡ checks.parent_fault self.now own parent }
        ensures cost { steps.new ≤ steps.old + 16 }
    {
        if self.is_object(own, steps) {
            return unless(parent == 0, ClassWhy::Index);
        }
        self.class_fault(parent)
    }

    // Whether the constant at the index is the value of a field.
    fn is_value(&self, index: u16) -> bool
        ensures { result ≡ checks.holds checks.is_value self.now index }
    {
        match self.constants.get(usize::from(index)) {
            Some(constant) => is_value(constant),
            None => false,
        }
    }

    // Whether the constant at the index is the value of a field with this descriptor.
    fn is_value_of(&self, descriptor: u16, index: u16) -> bool
        ensures { result ≡ checks.is_value_of self.now descriptor index }
    {
        match text_at(self.constants, descriptor) {
            Some(units) => match self.constants.get(usize::from(index)) {
                Some(constant) => has_type(units, self.roles(descriptor).is_string, constant),
                None => false,
            },
            None => false,
        }
    }

    /// The index of the value of a field with this descriptor (JVMS 4.7.2).
    pub fn value_fault(&self, field: &Member, index: u16) -> Option<ClassWhy>
        ensures { result ≡ checks.value_fault self.now field.now index }
    {
        let passed = if field.flags & ACC_STATIC == ACC_STATIC {
            self.is_value_of(field.descriptor, index)
        } else {
            self.is_value(index)
        };
        unless(passed, ClassWhy::Index)
    }
}
