//! Assembler text, and listings.

use crate::class_files::PRINTS_42;
use class_equality::is_same_file;
use class_file::read;
use jasm::{ListError, TextError, assemble, list};
use std::test::Fail;

// The class that prints 42, as text.
const TEXT: &str = "class public super A\nsuper java/lang/Object\n\
    method public static main ([Ljava/lang/String;)V\nstack 2 locals 1\n\
    getstatic java/lang/System out Ljava/io/PrintStream;\nbipush 42\n\
    invokevirtual java/io/PrintStream println (I)V\nreturn\nend\n";

#[test]
fn a_class_file_is_assembled_and_listed(rt: HostRuntime) -> Result<(), Fail> {
    let file = read(rt.alloc(), &PRINTS_42).ok().ok_or("not read")?;
    let made = assemble(rt.alloc(), TEXT.as_bytes())
        .ok()
        .ok_or("not assembled")?;
    assert!(rt; is_same_file(&made, &file));
    let text = list(rt.alloc(), &file).ok().ok_or("not listed")?;
    assert_eq!(rt; text.as_slice(), TEXT.as_bytes());
    Ok(())
}

#[test]
fn a_refusal_names_the_first_line_that_does_not_fit(rt: HostRuntime) {
    let table: [(&str, u32); 14] = [
        ("", 1),
        ("class A\nflop\n", 2),
        ("class A\n", 2),
        ("class java/lang/Object\nsuper A\n", 2),
        ("class A\nsuper B", 2),
        ("# of A\n\nclass A\nsuper B.C\n", 4),
        ("class A\nsuper B\nfield f V\n", 3),
        ("class A\nsuper B\nmethod f ()V\nend\n", 4),
        (
            "class A\nsuper B\nmethod abstract f ()V\nstack 0 locals 0\n",
            4,
        ),
        ("class A\nsuper B\nmethod f ()V\nstack 0 locals 0\nend\n", 5),
        (
            "class A\nsuper B\nmethod f ()V\nstack 0 locals 0\ngoto a\nreturn\nend\n",
            5,
        ),
        (
            "class A\nsuper B\nmethod f ()V\nstack 0 locals 0\na:\na:\nreturn\nend\n",
            6,
        ),
        (
            "class A\nsuper B\nmethod f ()V\nstack 0 locals 0\nreturn\nframe |\nend\n",
            7,
        ),
        (
            "class A\nsuper B\nmethod f ()V\nstack 1 locals 1\na:\nreturn\n\
            catch any from a to a using a\nend\n",
            7,
        ),
    ];
    for (text, line) in table.iter() {
        let refusal = assemble(rt.alloc(), text.as_bytes()).err();
        assert_eq!(rt; refusal, Some(TextError::Bad { line: *line }));
    }
}

#[test]
fn a_class_file_of_another_version_is_unlisted(rt: HostRuntime) -> Result<(), Fail> {
    let mut bytes = PRINTS_42;
    bytes[7] = 52;
    let file = read(rt.alloc(), &bytes).ok().ok_or("not read")?;
    assert_eq!(rt; list(rt.alloc(), &file).err(), Some(ListError::Unlisted));
    Ok(())
}
