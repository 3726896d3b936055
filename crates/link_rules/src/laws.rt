//! What holds of the definitions in `specs/`, each as a call that does nothing.

ghost use Rattle.std.specs.Prelude.{◌≡◌, ◌↔◌, Some};
ghost use Rattle.items.specs.First.{AllNone, IsFirst};
ghost use Rattle.link_rules.specs.Program.{Program};
ghost use Rattle.link_rules.specs.declared.fault.LinkFault.{LinkFault};
ghost use Rattle.link_rules.specs.Faults.{Links, link_fault, link_faults};

/// A program links exactly where none of the rules in `link_faults` is broken. Else the fault that is named is the first: it is there, and
/// none comes before it in the order of classes, of their parts, and of reasons (JVMS 5.3, 5.4).
pub fn first_faults()
    ensures first { (p : Program) (f : LinkFault)
        → link_fault p ≡ Some f ↔ IsFirst (link_faults p) f }
    ensures none { (p : Program) → Links p ↔ AllNone (link_faults p) }
{}
