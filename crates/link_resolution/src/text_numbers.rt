//! Numbers by texts.

ghost use Rattle.std.specs.Prelude.{◌≡◌, ℕ, List, None, IfOk, OnErr, OnOk, length};
ghost use Rattle.std.specs.List.{fold};
ghost use Rattle.std.specs.Ordering.{nat_cmp};
ghost use Rattle.std.specs.BTreeMap.{get};
ghost use Rattle.link_resolution.specs.TextNumbers as spec;
ghost use Rattle.link_resolution.specs.TextNumbers.{AddsText, IsAlike, number_at};

use items::{Items, NoMemory};
use std::alloc::Global;
use std::collections::BTreeMap;

/// A text and its number.
#[derive(Drop)]
pub struct Numbered {
    pub text: Items<u16>,
    pub number: u32,
}

/// Numbers by texts. A text is found by its hash and compared once. Where another text of its hash came before it, it is found among all such texts
/// by comparisons as many as the logarithm of their count, so that nobody can raise the cost by choosing texts.
#[derive(Drop)]
pub struct TextNumbers {
    /// The texts that came first with their hashes.
    pub texts: Vec<Numbered>,
    /// Their places by their hashes.
    pub first: BTreeMap<u64, u32>,
    /// The other texts.
    pub others: BTreeMap<Vec<u16>, u32>,
}

/// What a hash is multiplied by before a word is added.
const FACTOR: u64 = 0x9e37_79b9_7f4a_7c15;

// A hash with one word more.
#[tactic(auto, unfolding(crate::specs::TextNumbers::mixed))]
fn mixed(hash: u64, word: u64) -> u64
    ensures { result ≡ spec.mixed hash word }
{
    hash.wrapping_mul(FACTOR).wrapping_add(word)
}

// Four units as one word.
fn word_of(a: u16, b: u16, c: u16, d: u16) -> u64
    ensures { result ≡ spec.word_of a b c d }
{
    u64::from(a)
        + u64::from(b) * 0x1_0000
        + u64::from(c) * 0x1_0000_0000
        + u64::from(d) * 0x1_0000_0000_0000
}

// The hash with the last units of a text, one by one.
fn with_last(hash: u64, units: &[u16]) -> u64
    ensures { result ≡ fold spec.mixed hash units.now }
{
    let mut hash = hash;
    for unit in units {
        hash = mixed(hash, u64::from(*unit));
    }
    hash
}

fn hash_of(text: &[u16]) -> u64
    ensures { result ≡ spec.hash_of text.now }
{
    let mut hash = 0u64;
    let mut left = text;
    while let [a, b, c, d, others @ ..] = left {
        hash = mixed(hash, word_of(*a, *b, *c, *d));
        left = others;
    }
    with_last(hash, left)
}

// Its number, if it has this text.
fn number_if(numbered: &Numbered, text: &[u16]) -> Option<u32>
    ensures { result ≡ spec.number_if text.now numbered.now }
{
    if numbered.text.as_slice() == text {
        Some(numbered.number)
    } else {
        None
    }
}

// The place of the next text.
fn next_place(texts: &[Numbered]) -> Result<u32, NoMemory>
    ensures { IfOk result (λ n. n ≡ length texts.now) }
{
    let place = u32::try_from(texts.len()).map_err(|_| NoMemory)?;
    Ok(place)
}

impl TextNumbers {
    /// No text has a number. This takes no memory.
    pub fn new(alloc: Global) -> Self
        ensures { (text : List ℕ) → number_at result text ≡ None }
    {
        TextNumbers {
            texts: Vec::new(alloc),
            first: BTreeMap::new(alloc),
            others: BTreeMap::new(alloc),
        }
    }

    // The number of a text that came first with this hash.
    fn first_number(&self, hash: u64, text: &[u16]) -> Option<u32>
        ensures { result ≡ spec.found self.now.texts.items text.now
            (get nat_cmp self.now.first hash) }
    {
        let place = self.first.get(&hash)?;
        number_if(self.texts.get(*place as usize)?, text)
    }

    // The number of a text that has this hash.
    fn number_by(&self, hash: u64, text: &[u16]) -> Option<u32>
        requires { hash ≡ spec.hash_of text.now }
        ensures { result ≡ number_at self.now text.now }
    {
        match self.first_number(hash, text) {
            Some(number) => Some(number),
            None => self.others.get(text).copied(),
        }
    }

    /// The number of a text. `None`: it has none.
    pub fn number(&self, text: &[u16]) -> Option<u32>
        ensures { result ≡ number_at self.now text.now }
    {
        self.number_by(hash_of(text), text)
    }

    // Adds a text whose hash no other has.
    fn add_first(
        &mut self,
        alloc: Global,
        hash: u64,
        text: &[u16],
        number: u32,
    ) -> Result<(), NoMemory>
        requires hash { hash ≡ spec.hash_of text.now }
        requires free { get nat_cmp self.old.first hash ≡ None }
        requires none { number_at self.old text.now ≡ None }
        ensures ok { OnOk result (AddsText self.old text.now number self.new) }
        ensures err { OnErr result (IsAlike self.old self.new) }
    {
        let place = next_place(&self.texts)?;
        let text = Items::from(Vec::from_slice(alloc, text)?);
        self.texts.push(Numbered { text, number })?;
        self.first.insert(hash, place)?;
        Ok(())
    }

    // Adds a text whose hash another one has.
    fn add_other(&mut self, alloc: Global, text: &[u16], number: u32) -> Result<(), NoMemory>
        requires { number_at self.old text.now ≡ None }
        ensures ok { OnOk result (AddsText self.old text.now number self.new) }
        ensures err { OnErr result (IsAlike self.old self.new) }
    {
        let key = Vec::from_slice(alloc, text)?;
        self.others.insert(key, number)?;
        Ok(())
    }

    // Adds a text that has this hash and no number.
    fn add_by(
        &mut self,
        alloc: Global,
        hash: u64,
        text: &[u16],
        number: u32,
    ) -> Result<(), NoMemory>
        requires hash { hash ≡ spec.hash_of text.now }
        requires none { number_at self.old text.now ≡ None }
        ensures ok { OnOk result (AddsText self.old text.now number self.new) }
        ensures err { OnErr result (IsAlike self.old self.new) }
    {
        if self.first.contains_key(&hash) {
            self.add_other(alloc, text, number)
        } else {
            self.add_first(alloc, hash, text, number)
        }
    }

    /// Gives a number to a text that has none. Where memory runs out all texts have the numbers that they had.
    pub fn add_new(&mut self, alloc: Global, text: &[u16], number: u32) -> Result<(), NoMemory>
        requires { number_at self.old text.now ≡ None }
        ensures ok { OnOk result (AddsText self.old text.now number self.new) }
        ensures err { OnErr result (IsAlike self.old self.new) }
    {
        self.add_by(alloc, hash_of(text), text, number)
    }

    /// Gives a text a number, unless it has one. Where memory runs out all texts have the numbers that they had.
    pub fn add(&mut self, alloc: Global, text: &[u16], number: u32) -> Result<(), NoMemory>
        ensures ok { OnOk result (AddsText self.old text.now number self.new) }
        ensures err { OnErr result (IsAlike self.old self.new) }
    {
        let hash = hash_of(text);
        if self.number_by(hash, text).is_some() {
            return Ok(());
        }
        self.add_by(alloc, hash, text, number)
    }
}
