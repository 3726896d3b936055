//! Stack maps as whole frames (JVMS 4.7.4).

use items::Items;
use stack_maps::{FrameTypes, MapError, MapWhy, VType, expand};
use std::alloc::{AllocError, Global};
use std::test::Fail;

fn types(alloc: Global, locals: &[VType], stack: &[VType]) -> Result<FrameTypes, AllocError> {
    Ok(FrameTypes {
        locals: Items::from(Vec::from_slice(alloc, locals)?),
        stack: Items::from(Vec::from_slice(alloc, stack)?),
    })
}

#[test]
fn each_kind_of_frame_is_expanded(rt: HostRuntime) -> Result<(), Fail> {
    use VType::{Int, Long, Null, Object, Top, Uninit, UninitThis};
    let first = types(rt.alloc(), &[Int, Object(9)], &[])?;
    let bytes = [
        0, 9, // nine frames
        5, // same
        67, 5, // one item, null
        247, 1, 0, 7, 0, 2, // one item, Object 2, delta 256
        251, 0, 0, // same, delta 0
        253, 0, 1, 4, 8, 1, 2, // a long and Uninit 0x102 more
        250, 0, 0, // one local less
        255, 0, 3, 0, 2, 6, 0, 0, 1, 1, // [UninitThis, Top] and [Int]
        249, 0, 0, // two locals less
        2, // same
    ];
    let whole = [
        (5, [Int, Object(9)].as_slice(), [].as_slice()),
        (9, &[Int, Object(9)], &[Null]),
        (266, &[Int, Object(9)], &[Object(2)]),
        (267, &[Int, Object(9)], &[]),
        (269, &[Int, Object(9), Long, Uninit(0x102)], &[]),
        (270, &[Int, Object(9), Long], &[]),
        (274, &[UninitThis, Top], &[Int]),
        (275, &[], &[]),
        (278, &[], &[]),
    ];
    let frames = expand(rt.alloc(), &first, &bytes)?;
    assert_eq!(rt; frames.len(), whole.len());
    for (frame, (pc, locals, stack)) in frames.iter().zip(whole) {
        assert_eq!(rt; frame.0, pc);
        assert!(rt; frame.1 == types(rt.alloc(), locals, stack)?);
    }
    Ok(())
}

#[test]
fn same_frames_have_the_first_locals(rt: HostRuntime) -> Result<(), Fail> {
    let first = types(rt.alloc(), &[VType::Float, VType::Double], &[])?;
    let frames = expand(rt.alloc(), &first, &[0, 2, 5, 2])?;
    assert_eq!(rt; frames.len(), 2);
    for (frame, pc) in frames.iter().zip([5, 8]) {
        assert_eq!(rt; frame.0, pc);
        assert!(rt; frame.1 == first);
    }
    Ok(())
}

#[test]
fn the_first_fault_is_named(rt: HostRuntime) -> Result<(), Fail> {
    use MapWhy::{Chop, Reserved, Short, Tag, Trailing};
    let first = types(rt.alloc(), &[], &[])?;
    let cases = [
        ([].as_slice(), 0, Short),
        (&[0], 0, Short),
        (&[0, 1], 2, Short),
        (&[0, 1, 128], 2, Reserved),
        (&[0, 1, 246], 2, Reserved),
        (&[0, 1, 251, 0], 3, Short),
        (&[0, 1, 255, 0, 0, 255, 255], 7, Short),
        (&[0, 1, 252, 0, 5, 9], 5, Tag),
        (&[0, 1, 64, 7, 1], 4, Short),
        (&[0, 1, 250, 0, 0], 2, Chop),
        (&[0, 1, 250], 2, Chop),
        (&[0, 0, 0], 2, Trailing),
        (&[0, 1, 3, 3], 3, Trailing),
    ];
    for (bytes, at, why) in cases {
        match expand(rt.alloc(), &first, bytes) {
            Ok(_) => assert!(rt; false),
            Err(refusal) => assert_eq!(rt; refusal, MapError::Bad { at, why }),
        }
    }
    Ok(())
}
