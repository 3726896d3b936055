//! Modified UTF-8 (JVMS 4.4.7).

use items::NoMemory;
use jvm_utf8::{Utf8Error, append, decode, encode};
use std::test::Fail;

// JVMS 4.4.7: the bounds of each form, 0 in two bytes, and a character beyond 65535 as two surrogates.
#[test]
fn texts_are_decoded_and_encoded(rt: HostRuntime) -> Result<(), Fail> {
    let table: [(&[u8], &[u16]); 4] = [
        (&[], &[]),
        (&[0x41, 0xc0, 0x80], &[0x41, 0]),
        (&[0xed, 0xa0, 0xbd, 0xed, 0xb8, 0x80], &[0xd83d, 0xde00]),
        (
            &[
                0x7f, 0xc2, 0x80, 0xdf, 0xbf, 0xe0, 0xa0, 0x80, 0xef, 0xbf, 0xbf,
            ],
            &[0x7f, 0x80, 0x7ff, 0x800, 0xffff],
        ),
    ];
    for (bytes, units) in table.iter() {
        let decoded = decode(rt.alloc(), *bytes).ok().ok_or("not decoded")?;
        assert_eq!(rt; decoded.as_slice(), *units);
        let encoded = encode(rt.alloc(), *units).ok().ok_or("not encoded")?;
        assert_eq!(rt; encoded.as_slice(), *bytes);
    }
    let mut bytes = vec![in rt.alloc(); b'<']?;
    let outcome: Result<(), NoMemory> = append(&mut bytes, &[0x41, 0]);
    assert!(rt; outcome.is_ok());
    assert_eq!(rt; bytes.as_slice(), [b'<', 0x41, 0xc0, 0x80].as_slice());
    Ok(())
}

#[test]
fn a_refusal_names_the_first_bad_byte(rt: HostRuntime) {
    let table: [(&[u8], u32); 10] = [
        (&[0x41, 0x00], 1),
        (&[0xc1, 0x81], 0),
        (&[0xe0, 0x81, 0x81], 0),
        (&[0xf0, 0x9f, 0x98, 0x80], 0),
        (&[0xc0, 0x81], 0),
        (&[0x41, 0x41, 0xc2], 2),
        (&[0x41, 0xe1, 0x80], 1),
        (&[0xc2, 0x80, 0xc2, 0x41, 0x41], 2),
        (&[0xed, 0xa0, 0xbd, 0xed, 0x41, 0x80], 3),
        (&[0x80, 0x00], 0),
    ];
    for (bytes, at) in table.iter() {
        assert!(rt; decode(rt.alloc(), *bytes) == Err(Utf8Error::Bad { at: *at }));
    }
}
