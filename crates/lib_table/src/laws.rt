//! Laws of the definitions, each the contract of a function that does nothing.

ghost use Rattle.std.specs.Prelude.{All};
ghost use Rattle.lib_table.specs.Library.{library};
ghost use Rattle.lib_table.specs.Spelled.{IsSpelled};

/// Each built-in class is a class file that has bytes.
pub fn library_is_spelled()
    ensures { All IsSpelled library }
{}
