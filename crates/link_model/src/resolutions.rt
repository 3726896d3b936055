//! What the constants of a method's instructions mean, lent from tables.

ghost use Rattle.std.specs.Prelude.{◌≡◌, drop, get_or, length};
ghost use Rattle.link_model.specs.Resolutions as spec;
ghost use Rattle.link_model.specs.Sites.{plain};

use crate::{Resolution, Site};

// What the constant means of an instruction that has none.
static PLAIN: Resolution = Resolution {
    site: Site::Plain,
    class: None,
    failure: None,
};

/// What the constants of a method's instructions mean: by instruction, the number of the meaning in a table. So an instruction takes
/// four bytes, and what many mean stands in the table once.
#[derive(Clone, Copy)]
pub struct Resolutions<'a> {
    pub numbers: &'a [u32],
    pub table: &'a [Resolution],
}

// What has a number in a table; nothing where the table has no such number.
#[inline(always)]
fn numbered(table: &[Resolution], number: u32) -> &Resolution
    ensures { result.now ≡ spec.numbered table.now number }
{
    match table.get(number as usize) {
        Some(resolution) => resolution,
        None => &PLAIN,
    }
}

impl<'a> Resolutions<'a> {
    /// What the constant of the instruction with an index means; nothing where there is none.
    #[inline(always)]
    pub fn at(&self, index: usize) -> &'a Resolution
        ensures { result.now ≡ get_or (spec.meanings self.now) index plain }
    {
        match self.numbers.get(index) {
            Some(number) => numbered(self.table, *number),
            None => &PLAIN,
        }
    }

    /// Those of the instructions after the first.
    #[inline(always)]
    pub fn behind_first(&self) -> Self
        ensures { spec.meanings result ≡ drop 1 (spec.meanings self.now) }
    {
        match self.numbers.split_first() {
            Some((_, behind)) => Resolutions {
                numbers: behind,
                table: self.table,
            },
            None => *self,
        }
    }

    /// How many instructions there are.
    pub fn len(&self) -> usize
        ensures { result ≡ length (spec.meanings self.now) }
    {
        self.numbers.len()
    }
}
