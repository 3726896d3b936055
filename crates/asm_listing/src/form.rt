//! Which operands an opcode has.

ghost use Rattle.std.specs.Prelude.{◌≡◌};
ghost use Rattle.asm_listing.specs.Operands as spec;

/// The operands of an instruction in its code (JVMS 6.5).
#[derive(Clone, Copy)]
pub enum Form {
    Nothing,
    Byte,
    Short,
    /// A constant whose index has one byte.
    Constant,
    /// A constant whose index has two bytes.
    WideConstant,
    Local,
    Increment,
    Branch,
    FarBranch,
    Table,
    Lookup,
    Member,
    InterfaceMember,
    Class,
    Element,
    Dimensions,
}

/// Which operands the opcode has; one whose instruction has no name has none.
pub fn form_of(opcode: u8) -> Form
    ensures { result ≡ spec.form_of opcode }
{
    match opcode {
        16 => Form::Byte,
        17 => Form::Short,
        18 => Form::Constant,
        19..=20 => Form::WideConstant,
        21..=25 => Form::Local,
        54..=58 => Form::Local,
        132 => Form::Increment,
        153..=167 => Form::Branch,
        170 => Form::Table,
        171 => Form::Lookup,
        178..=184 => Form::Member,
        185 => Form::InterfaceMember,
        187 => Form::Class,
        188 => Form::Element,
        189 => Form::Class,
        192..=193 => Form::Class,
        197 => Form::Dimensions,
        198..=199 => Form::Branch,
        200 => Form::FarBranch,
        _ => Form::Nothing,
    }
}
