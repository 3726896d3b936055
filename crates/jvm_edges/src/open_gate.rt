//! A gate that lets every carrier pass.

ghost use Rattle.std.specs.Prelude.{◌≡◌};

use crate::gate::Gate;

/// A gate at which nobody waits.
#[derive(Clone, Copy, Debug, Default, PartialEq, Eq)]
pub struct OpenGate;

impl OpenGate {
    /// A gate that every carrier passes at once.
    pub fn new() -> Self
        ensures { result ≡ record {} }
    {
        OpenGate
    }
}

impl Gate for OpenGate {
    fn local(&self, _carrier: u32, _thread: u32) {}
}
