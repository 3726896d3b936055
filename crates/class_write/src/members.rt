//! Fields and methods (JVMS 4.5, 4.6).

ghost use Rattle.std.specs.Prelude.{◌≡◌, ◌++◌, OnOk};
ghost use Rattle.class_grammar.specs.Layout as spec;
ghost use Rattle.class_grammar.specs.Ranges.{IsMember, IsTable};

use crate::attributes::attributes;
use crate::numbers::u2;
use class_model::Member;
use items::NoMemory;

fn member(out: &mut Vec<u8>, member: &Member) -> Result<(), NoMemory>
    requires { IsMember member.now }
    ensures { OnOk result (out.new.items ≡ out.old.items ++ spec.member member.now) }
{
    u2(out, member.flags)?;
    u2(out, member.name)?;
    u2(out, member.descriptor)?;
    attributes(out, &member.attributes)
}

/// Fields or methods after their number (JVMS 4.1).
pub fn members(out: &mut Vec<u8>, table: &[Member]) -> Result<(), NoMemory>
    requires { IsTable IsMember table.now }
    ensures { OnOk result (out.new.items ≡ out.old.items ++ spec.table spec.member table.now) }
{
    u2(out, table.len() as u16)?;
    for one in table {
        member(out, one)?;
    }
    Ok(())
}
