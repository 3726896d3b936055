//! Calls whose steps are counted, on a ledger of the tests' own. How many steps were taken is in the contracts alone: no ledger
//! tells it at run time.

ghost use Rattle.std.specs.Prelude.{◌≡◌, ◌<◌, ◌≤◌, ◌+◌, ◌*◌, ◌^◌, length};

use crate::ascii::units_of;
use crate::class_files::PRINTS_42;
use class_file::{read, read_counted};
use descriptors::{field_kind, field_kind_counted, method_kind, method_kind_counted};
use jvm_utf8::{decode, decode_counted};
use std::alloc::{AllocError, Global};
use std::marker::Brand;
use std::sync::ledger::{Blank, Ledger};
use std::test::Fail;
use steps::Steps;

// Whether a text is decoded alike with a count and without one.
fn texts_agree<L: Ledger>(alloc: Global, bytes: &[u8], steps: &mut Steps<L>) -> bool
    requires { length bytes.now < 2 ^ 16 }
    ensures { steps.new ≡ steps.old + length bytes.now }
{
    decode_counted(alloc, bytes, steps) == decode(alloc, bytes)
}

// Whether a descriptor is read alike, as that of a field and as that of a method.
fn kinds_agree<L: Ledger>(
    alloc: Global,
    units: &[u16],
    steps: &mut Steps<L>,
) -> Result<bool, AllocError>
    requires { length units.now < 2 ^ 16 }
    ensures { steps.new ≡ steps.old + 2 * length units.now }
{
    let field = field_kind_counted(alloc, units, steps);
    let method = method_kind_counted(alloc, units, steps);
    let counted = format!(in alloc; "{field:?} {method:?}")?;
    let field = field_kind(alloc, units);
    let method = method_kind(alloc, units);
    let plain = format!(in alloc; "{field:?} {method:?}")?;
    Ok(counted == plain)
}

// Whether a class file is read alike.
fn files_agree<L: Ledger>(alloc: Global, bytes: &[u8], steps: &mut Steps<L>) -> bool
    requires { length bytes.now < 2 ^ 16 }
    ensures { steps.new ≤ steps.old + 4 * length bytes.now }
{
    read_counted(alloc, bytes, steps) == read(alloc, bytes)
}

fn all_agree<L: Ledger>(alloc: Global, blank: Blank) -> Result<bool, AllocError>
    requires name { blank.name ≡ L.name }
    requires parts { blank.parts ≡ L.parts }
    requires some { 0 < L.parts }
{
    let table: [&[u8]; 8] = [
        b"",
        b"java/lang/Object",
        b"[[Ljava/lang/String;",
        b"(IJ[D)V",
        b"(I",
        b"J",
        &[0x41, 0xc0, 0x80],
        &[0x41, 0x00],
    ];
    let mut steps = Steps::<L>::new(blank);
    let mut agree = files_agree(alloc, &PRINTS_42, &mut steps);
    for bytes in table.iter() {
        let units = units_of(alloc, *bytes)?;
        if bytes.len() <= 0xff && units.len() <= 0xff {
            agree &= files_agree(alloc, *bytes, &mut steps);
            agree &= texts_agree(alloc, *bytes, &mut steps);
            agree &= kinds_agree(alloc, &units, &mut steps)?;
        }
    }
    Ok(agree)
}

#[test]
fn counted_calls_answer_alike(rt: HostRuntime) -> Result<(), Fail> {
    assert!(rt; all_agree::<Brand>(rt.alloc(), Blank::new(1))?);
    Ok(())
}
