//! The words that have a meaning of their own.

ghost use Rattle.std.specs.Prelude.{◌≡◌, map};
ghost use Rattle.asm_text.specs.Mnemonics.{named, keyword_word, keyword_rows, flag_word, flag_rows, element_word, element_rows};

use crate::instruction::Element;
use crate::line::Flag;

/// The first word of a line that is no label and no instruction.
#[derive(Clone, Copy)]
pub enum Keyword {
    Class,
    Super,
    Implements,
    Field,
    Method,
    Stack,
    Frame,
    Catch,
    End,
}

static KEYWORDS: [(&str, Keyword); 9] = [
    ("class", Keyword::Class),
    ("super", Keyword::Super),
    ("implements", Keyword::Implements),
    ("field", Keyword::Field),
    ("method", Keyword::Method),
    ("stack", Keyword::Stack),
    ("frame", Keyword::Frame),
    ("catch", Keyword::Catch),
    ("end", Keyword::End),
];

static FLAGS: [(&str, Flag); 10] = [
    ("public", Flag::Public),
    ("private", Flag::Private),
    ("static", Flag::Static),
    ("final", Flag::Final),
    ("super", Flag::Super),
    ("synchronized", Flag::Synchronized),
    ("volatile", Flag::Volatile),
    ("native", Flag::Native),
    ("interface", Flag::Interface),
    ("abstract", Flag::Abstract),
];

static ELEMENTS: [(&str, Element); 6] = [
    ("boolean", Element::Boolean),
    ("char", Element::Char),
    ("byte", Element::Byte),
    ("short", Element::Short),
    ("int", Element::Int),
    ("long", Element::Long),
];

// What the word stands for, by a table of words.
fn named<T: Copy>(rows: &[(&str, T)], word: &[u8]) -> Option<T>
    ensures { result ≡ named (map (λ r. (r.0.now, r.1)) rows.now) word.now }
{
    for (text, value) in rows {
        if word == text.as_bytes() {
            return Some(*value);
        }
    }
    None
}

/// The keyword that the word is.
pub fn keyword_named(word: &[u8]) -> Option<Keyword>
    ensures { result ≡ named keyword_rows word.now }
{
    named(&KEYWORDS, word)
}

/// The flag that the word is.
pub fn flag_named(word: &[u8]) -> Option<Flag>
    ensures { result ≡ named flag_rows word.now }
{
    named(&FLAGS, word)
}

/// The type of elements that the word is.
pub fn element_named(word: &[u8]) -> Option<Element>
    ensures { result ≡ named element_rows word.now }
{
    named(&ELEMENTS, word)
}

/// The word of a flag.
pub fn flag_word(flag: Flag) -> &'static [u8]
    ensures { result.now ≡ flag_word flag }
{
    match flag {
        Flag::Public => b"public",
        Flag::Private => b"private",
        Flag::Static => b"static",
        Flag::Final => b"final",
        Flag::Super => b"super",
        Flag::Synchronized => b"synchronized",
        Flag::Volatile => b"volatile",
        Flag::Native => b"native",
        Flag::Interface => b"interface",
        Flag::Abstract => b"abstract",
    }
}

/// The word of a type of elements.
pub fn element_word(element: Element) -> &'static [u8]
    ensures { result.now ≡ element_word element }
{
    match element {
        Element::Boolean => b"boolean",
        Element::Char => b"char",
        Element::Byte => b"byte",
        Element::Short => b"short",
        Element::Int => b"int",
        Element::Long => b"long",
    }
}
