//! Class initializers (JVMS 2.9.2), and methods that hold a monitor while they run (JVMS 2.11.10).

ghost use Rattle.std.specs.Prelude.{◌≡◌};
ghost use Rattle.link_model.specs.Initializers as spec;

use crate::MethodInfo;
use class_grammar::is_same;
use class_model::ACC_SYNCHRONIZED;
use descriptors::{Kind, Signature};

fn takes_nothing(args: &[Kind]) -> bool
    ensures { result ≡ spec.takes_nothing args.now }
{
    match args {
        [] => true,
        _ => false,
    }
}

// Whether the descriptor is `()V`.
fn is_of_initializer(signature: &Signature) -> bool
    ensures { result ≡ spec.is_of_initializer signature.now }
{
    takes_nothing(&signature.args) && signature.result.is_none()
}

/// Whether a method is the initializer of its class: static, called `<clinit>`, with the descriptor `()V` (JVMS 2.9.2).
pub fn is_initializer(method: &MethodInfo) -> bool
    ensures { result ≡ spec.is_initializer method.now }
{
    method.is_static() && is_same(&method.name, b"<clinit>") && is_of_initializer(&method.signature)
}

/// Whether a method holds a monitor while it runs (JVMS 2.11.10). Of the flags of a class initializer only that of static means something
/// (JVMS 4.6).
pub fn is_synchronized(method: &MethodInfo) -> bool
    ensures { result ≡ spec.is_synchronized method.now }
{
    method.flags & ACC_SYNCHRONIZED == ACC_SYNCHRONIZED && !is_initializer(method)
}
