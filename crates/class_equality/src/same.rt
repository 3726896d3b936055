//! Whether two values are the same.

ghost use Rattle.std.specs.Prelude.{◌≡◌};
ghost use Rattle.std.specs.Bool.{Decides};

/// A type whose values can be compared.
pub trait Same {
    /// Whether the other is the same value.
    fn is_same(&self, other: &Self) -> bool
        ensures { Decides result (self.now ≡ other.now) };
}

/// Whether two slices have the same items.
pub fn are_same<T: Same>(left: &[T], right: &[T]) -> bool
    ensures { Decides result (left.now ≡ right.now) }
{
    if left.len() != right.len() {
        return false;
    }
    for (index, item) in left.iter().enumerate() {
        if !item.is_same(&right[index]) {
            return false;
        }
    }
    true
}
