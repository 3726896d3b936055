//! Rules in their order: the first that is broken is what is wrong.

ghost use Rattle.std.specs.Prelude.{◌≡◌};
ghost use Rattle.items.specs.First as spec;

use link_rules::LinkWhy;

/// What is wrong, unless a test has passed.
pub fn unless(passed: bool, why: LinkWhy) -> Option<LinkWhy>
    ensures { result ≡ spec.unless passed why }
{
    if passed { None } else { Some(why) }
}

/// The first rule that is broken.
pub fn first_why(faults: &[Option<LinkWhy>]) -> Option<LinkWhy>
    ensures { result ≡ spec.first_some faults.now }
{
    for fault in faults {
        if let Some(why) = fault {
            return Some(*why);
        }
    }
    None
}
