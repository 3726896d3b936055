use crate::MemberPlace;

/// What an invocation selects (JVMS 5.4.6, 6.5).
#[derive(Clone, Copy)]
pub enum Choice {
    /// This method, which isn't abstract.
    Method(MemberPlace),
    /// An abstract method, or none.
    Abstract,
    /// Several maximally specific methods that aren't abstract.
    Several,
}
