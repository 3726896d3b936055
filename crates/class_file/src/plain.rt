//! Texts of which each byte is a unit by itself, sixteen bytes at a time (JVMS 4.4.7). What is looked at together may go on
//! behind the text, by fifteen bytes at most.

ghost use Rattle.std.specs.Prelude.{◌≡◌, ◌<◌, ◌≤◌, ◌+◌, ◌++◌, length, take, drop, OnOk};
ghost use Rattle.std.specs.List.{list_all, prefix_len};
ghost use Rattle.jvm_utf8.specs.Units.{is_plain};

use std::alloc::AllocError;
use std::simd::prelude::*;

/// How many bytes are looked at together.
pub const LANES: usize = 16;

// How many bytes in a row from an index on are units by themselves, of those that are looked at together.
#[inline(always)]
fn plain_run(bytes: &[u8], at: usize) -> usize
    requires { at + LANES ≤ length bytes.now }
    ensures { result ≡ prefix_len is_plain (take LANES (drop at bytes.now)) }
{
    let lanes = u8x16::from_slice(&bytes[at..]) - u8x16::splat(1);
    let stops = lanes.simd_ge(u8x16::splat(0x7f)).to_bitmask();
    if stops == 0 {
        LANES
    } else {
        stops.trailing_zeros() as usize
    }
}

/// Whether each of the first `count` bytes is a unit by itself. To look at a byte here is part of the step that makes its
/// unit.
#[inline(always)]
pub fn are_plain(bytes: &[u8], count: usize) -> bool
    requires { count + LANES ≤ length bytes.now }
    ensures { result ≡ list_all is_plain (take count bytes.now) }
{
    let mut at = 0;
    while at < count {
        let run = plain_run(bytes, at);
        if run < LANES {
            return count <= at + run;
        }
        at += LANES;
    }
    true
}

/// Appends each of the first `count` bytes as a unit.
#[inline(always)]
pub fn append_front(units: &mut Vec<u16>, bytes: &[u8], count: usize) -> Result<(), AllocError>
    requires { count + LANES ≤ length bytes.now }
    ensures { OnOk result (units.new.items ≡ units.old.items ++ take count bytes.now) }
{
    let before = units.len();
    let mut at = 0;
    while at < count {
        let lanes = u8x16::from_slice(&bytes[at..]).cast::<u16>();
        units.extend_from_slice(&lanes.to_array())?;
        at += LANES;
    }
    units.truncate(before + count);
    Ok(())
}
