//! Which method is main (JLS 12.1.4).

ghost use Rattle.std.specs.Prelude.{◌≡◌, ◌<◌, ◌^◌, length, position, IfSome};
ghost use Rattle.link_model.specs.MainMethod as spec;

use class_grammar::is_same;
use class_model::{ACC_PUBLIC, ACC_STATIC};
use descriptors::{ElementType, Kind, Signature};
use link_model::MethodInfo;
use link_resolution::has_flag;

fn is_string(element: &ElementType) -> bool
    ensures { result ≡ spec.is_string element.now }
{
    match element {
        ElementType::Class(name) => is_same(name, b"java/lang/String"),
        _ => false,
    }
}

fn takes_strings(args: &[Kind]) -> bool
    ensures { result ≡ spec.takes_strings args.now }
{
    match args {
        [only] => only.dimensions == 1 && is_string(&only.element),
        _ => false,
    }
}

fn is_of_main(signature: &Signature) -> bool
    ensures { result ≡ spec.is_of_main signature.now }
{
    takes_strings(&signature.args) && signature.result.is_none()
}

// Whether it is `public static void main(String[])` of a class.
fn is_main(class: u32, method: &MethodInfo) -> bool
    ensures { result ≡ spec.is_main class method.now }
{
    method.class == class
        && has_flag(method.flags, ACC_PUBLIC)
        && has_flag(method.flags, ACC_STATIC)
        && is_same(&method.name, b"main")
        && is_of_main(&method.signature)
}

fn first_main(methods: &[MethodInfo], class: u32) -> Option<usize>
    ensures found { result ≡ position (spec.is_main class) methods.now }
    ensures bound { IfSome result (λ n. n < length methods.now) }
{
    methods.iter().position(|method| is_main(class, method))
}

/// The number of the main method of a class among these.
pub fn main_among(methods: &[MethodInfo], class: u32) -> Option<u32>
    requires { length methods.now < 2 ^ 32 }
    ensures { result ≡ position (spec.is_main class) methods.now }
{
    match first_main(methods, class) {
        Some(number) => Some(number as u32),
        None => None,
    }
}
