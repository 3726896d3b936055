//! Laws of the definitions, each the contract of a function that does nothing.

ghost use Rattle.std.specs.Prelude.{◌≡◌};
ghost use Rattle.input_files.specs.Contents.{Contents};
ghost use Rattle.class_tools.specs.Due.{Due, IsAssembly, IsDue, IsListing};

/// At most one thing is due to a command whose file has these contents.
pub fn one_is_due()
    ensures assembly { (contents : Contents) (what other : Due) → IsDue IsAssembly contents what
        → IsDue IsAssembly contents other → what ≡ other }
    ensures listing { (contents : Contents) (what other : Due) → IsDue IsListing contents what
        → IsDue IsListing contents other → what ≡ other }
{}
