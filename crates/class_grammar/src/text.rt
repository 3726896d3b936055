//! Comparing texts with names.

ghost use Rattle.std.specs.Prelude.{◌≡◌, ◌≢◌, ◌<◌, ◌≤◌, ◌+◌, length};
ghost use Rattle.class_grammar.specs.Text.{same_text};

use std::marker::Brand;
use std::sync::ledger::{Blank, Ledger};
use steps::Steps;

/// Whether the units are these bytes, each a unit by itself.
pub fn is_same(units: &[u16], text: &[u8]) -> bool
    ensures { result ≡ same_text units.now text.now }
{
    is_same_on::<Brand>(units, text, Blank::new(1))
}

// `is_same`, on a ledger that nobody reads.
fn is_same_on<L: Ledger>(units: &[u16], text: &[u8], blank: Blank) -> bool
    requires name { blank.name ≡ L.name }
    requires parts { blank.parts ≡ L.parts }
    requires some { 0 < L.parts }
    ensures { result ≡ same_text units.now text.now }
{
    let mut steps = Steps::<L>::new(blank);
    is_same_counted(units, text, &mut steps)
}

/// `is_same`, with its steps counted.
pub fn is_same_counted<L: Ledger>(units: &[u16], text: &[u8], steps: &mut Steps<L>) -> bool
    ensures test { result ≡ same_text units.now text.now }
    ensures cost { steps.new ≤ steps.old + length text.now }
    // Texts of different lengths aren't compared.
    ensures none { length units.now ≢ length text.now → steps.new ≡ steps.old }
{
    if units.len() != text.len() {
        return false;
    }
    for (index, unit) in units.iter().enumerate() {
        steps.spend(1);
        if *unit != u16::from(text[index]) {
            return false;
        }
    }
    true
}
