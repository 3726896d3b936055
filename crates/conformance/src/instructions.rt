//! Code arrays as instructions (JVMS 6.5).

use jvm_words::{IntOp, LongOp, Narrow, ShiftOp};
use opcodes::{
    CodeError, CodeWhy, NO_INSTR, Op, Primitive, Simple, ValueKind, decode, index_by_pc,
};
use std::alloc::Global;
use std::test::Fail;

// How many instructions a short code has, or what its first fault is.
fn count_of(alloc: Global, code: &[u8]) -> Result<usize, CodeError> {
    if code.len() > 100 {
        return Err(CodeError::NoMemory);
    }
    Ok(decode(alloc, code)?.len())
}

const fn bad(pc: u32, why: CodeWhy) -> Result<usize, CodeError> {
    Err(CodeError::Bad { pc, why })
}

// JVMS 6.5: opcodes, operands that are cut off, and operands that aren't allowed.
#[test]
fn codes_are_decoded_or_refused(rt: HostRuntime) -> Result<(), Fail> {
    let table: [(&[u8], Result<usize, CodeError>); 20] = [
        (&[], Ok(0)),
        (&[0xcb], bad(0, CodeWhy::Opcode)),
        (&[0, 0xca, 0xcb], bad(1, CodeWhy::Opcode)),
        (&[0x10], bad(0, CodeWhy::Short)),
        (&[0x0b, 0x17, 1, 0x62, 0x97, 0xaf], Ok(5)),
        (&[0xc4, 0xac, 0, 0], bad(0, CodeWhy::Operand)),
        (&[0xc4, 0x12, 0, 0], bad(0, CodeWhy::Operand)),
        (&[0xc4, 0x84, 1, 0, 0xff, 0], Ok(1)),
        (&[0xc4, 0x17, 1, 0, 0xc4, 0xa9, 1, 0], Ok(2)),
        (&[0xc4, 0x15, 1], bad(0, CodeWhy::Short)),
        (&[0xbc, 3], bad(0, CodeWhy::Operand)),
        (&[0xbc, 4, 0xbc, 6, 0xbc, 11], Ok(3)),
        (&[0xbc, 12], bad(0, CodeWhy::Operand)),
        (&[0xc5, 0, 1, 0], bad(0, CodeWhy::Operand)),
        (&[0xc5, 0, 1, 1], Ok(1)),
        (&[0xb9, 0, 1, 1, 0], Ok(1)),
        (&[0xb9, 0, 1, 1, 1], bad(0, CodeWhy::Operand)),
        (&[0xb9, 0, 1, 1], bad(0, CodeWhy::Short)),
        (&[0xba, 0, 1, 0, 0], Ok(1)),
        (&[0xba, 0, 1, 0, 1], bad(0, CodeWhy::Operand)),
    ];
    for (code, outcome) in table.iter() {
        assert_eq!(rt; count_of(rt.alloc(), *code), *outcome);
    }
    Ok(())
}

// JVMS 6.5, tableswitch and lookupswitch, each with its padding.
#[test]
fn switches_are_decoded_or_refused(rt: HostRuntime) -> Result<(), Fail> {
    let table: [(&[u8], Result<usize, CodeError>); 5] = [
        (
            &[
                0xab, 1, 2, 3, 0, 0, 0, 9, 0, 0, 0, 2, 0, 0, 0, 7, 0, 0, 0, 5, 0, 0, 0, 7, 0, 0, 0,
                6,
            ],
            bad(0, CodeWhy::Operand),
        ),
        (
            &[0, 0xab, 0, 0, 0, 0, 0, 9, 255, 255, 255, 255],
            bad(1, CodeWhy::Operand),
        ),
        (&[0, 0, 0xab, 0, 0, 0, 0, 9, 0, 0, 0, 0], Ok(3)),
        (
            &[0, 0, 0, 0xaa, 0, 0, 0, 9, 0, 0, 0, 1, 0, 0, 0, 0],
            bad(3, CodeWhy::Operand),
        ),
        (
            &[0, 0, 0, 0xaa, 0, 0, 0, 9, 0, 0, 0, 1, 0, 0, 0, 1],
            bad(3, CodeWhy::Short),
        ),
    ];
    for (code, outcome) in table.iter() {
        assert_eq!(rt; count_of(rt.alloc(), *code), *outcome);
    }
    Ok(())
}

// The last instruction of a short code.
fn last_of(alloc: Global, code: &[u8]) -> Option<Op> {
    if code.len() > 100 {
        return None;
    }
    let mut instrs = decode(alloc, code).ok()?;
    Some(instrs.pop()?.op)
}

#[test]
fn operands_have_their_signs_and_their_widths(rt: HostRuntime) {
    let alloc = rt.alloc();
    assert!(rt; matches!(last_of(alloc, &[0x11, 0xff, 0xfe]), Some(Op::PushInt(-2))));
    assert!(rt;
        matches!(
            last_of(alloc, &[0xc4, 0x3a, 1, 2]),
            Some(Op::Store(ValueKind::Reference, 258))
        )
    );
    assert!(rt;
        matches!(
            last_of(alloc, &[0xc4, 0x84, 1, 0, 0xff, 0]),
            Some(Op::Increment(256, -256))
        )
    );
    assert!(rt; matches!(last_of(alloc, &[0, 0xa7, 0xff, 0xff]), Some(Op::Goto(0))));
    assert!(rt;
        matches!(
            last_of(alloc, &[0xc8, 0x80, 0, 0, 0]),
            Some(Op::Goto(-2_147_483_648))
        )
    );
    assert!(rt;
        matches!(
            last_of(alloc, &[0xbc, 11]),
            Some(Op::NewArray(Primitive::Long))
        )
    );
}

// JVMS 6.5: iushr, lrem, lshl, i2c.
#[test]
fn operations_are_those_of_the_arithmetic(rt: HostRuntime) {
    let alloc = rt.alloc();
    assert!(rt;
        matches!(
            last_of(alloc, &[0x7c]),
            Some(Op::Simple(Simple::IntBinary(IntOp::Ushr)))
        )
    );
    assert!(rt;
        matches!(
            last_of(alloc, &[0x71]),
            Some(Op::Simple(Simple::LongBinary(LongOp::Rem)))
        )
    );
    assert!(rt;
        matches!(
            last_of(alloc, &[0x79]),
            Some(Op::Simple(Simple::LongShift(ShiftOp::Shl)))
        )
    );
    assert!(rt;
        matches!(
            last_of(alloc, &[0x92]),
            Some(Op::Simple(Simple::IntNarrow(Narrow::Char)))
        )
    );
    assert!(rt; matches!(last_of(alloc, &[0x5c]), Some(Op::Simple(Simple::Dup2))));
}

#[test]
fn targets_of_a_switch(rt: HostRuntime) -> Result<(), Fail> {
    let code = [
        0, 0, 0xaa, 255, 0, 0, 0, 9, 255, 255, 255, 255, 0, 0, 0, 0, 0, 0, 0, 5, 255, 255, 255, 255,
    ];
    let Some(Op::TableSwitch(table)) = last_of(rt.alloc(), &code) else {
        return Err(Fail::from("a tableswitch"));
    };
    assert_eq!(rt; table.get().low, -1);
    assert_eq!(rt; table.get().targets.as_slice(), [7, 1].as_slice());
    Ok(())
}

#[test]
fn pcs_of_instructions_and_back(rt: HostRuntime) -> Result<(), Fail> {
    let code = [0xb2, 0, 13, 0x10, 42, 0xb6, 0, 19, 0xb1];
    let instrs = decode(rt.alloc(), &code).ok().ok_or("not a code")?;
    let pcs: Vec<u32> = instrs.iter().map(|instr| instr.pc).collect(rt.alloc())?;
    assert_eq!(rt; pcs.as_slice(), [0, 3, 5, 8].as_slice());
    let none = NO_INSTR;
    let indexes = index_by_pc(rt.alloc(), &code, &instrs)
        .ok()
        .ok_or("memory")?;
    assert_eq!(rt;
        indexes.as_slice(),
        [0, none, none, 1, none, 2, none, none, 3].as_slice()
    );
    Ok(())
}
