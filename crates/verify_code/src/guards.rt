//! The rows of an exception table, those of one handler that follow one another and meet taken together (JVMS 4.7.3).

ghost use Rattle.std.specs.Prelude.{◌≡◌, ◌++◌, ◌∷◌, [], IfOk, IfSome, MatchBool, Some, drop, get_or, map, None};
ghost use Rattle.verify_types.specs.Environment.{with_catches};
ghost use Rattle.std.specs.List.Sorted.{IsNonDecreasingBy};
ghost use Rattle.verify_code.specs.Guards.{AskAlike, Meet, guard_in, opened, start_of};

use class_model::Row;
use items::NoMemory;
use std::alloc::{AllocError, Global};

/// A row, or several of them in one, and the number of the class that its handler catches, if it names one.
#[derive(Clone, Copy)]
pub struct Guard {
    pub row: Row,
    pub catch: Option<u32>,
}

/// The pc of an exception handler, and the number of the class that it catches, if it names one.
#[derive(Clone, Copy, PartialEq, Eq)]
pub struct Caught {
    pub handler: u16,
    pub catch: Option<u32>,
}

// What the first row catches; every throwable where there is none.
fn first_catch(catches: &[Option<u32>]) -> Option<u32>
    ensures { result ≡ get_or catches.now 0 None }
{
    match catches.first() {
        Some(catch) => *catch,
        None => None,
    }
}

// Those after the first.
fn behind_first(catches: &[Option<u32>]) -> &[Option<u32>]
    ensures { result.now ≡ drop 1 catches.now }
{
    match catches.split_first() {
        Some((_, behind)) => behind,
        None => catches,
    }
}

impl Guard {
    /// Its handler.
    pub fn caught(&self) -> Caught
        ensures { result ≡ record { handler = self.now.row.handler; catch = self.now.catch } }
    {
        Caught {
            handler: self.row.handler,
            catch: self.catch,
        }
    }
}

/// Whether the handler that is known is this one.
pub fn is_last(last: Option<Caught>, here: Caught) -> bool
    ensures { MatchBool result (last ≡ Some here) (Unit {0}) }
{
    match last {
        Some(last) => last == here,
        None => false,
    }
}

// Whether the ranges of two rows meet.
fn do_meet(a: &Row, b: &Row) -> bool
    ensures { MatchBool result (Meet a.now b.now) (Unit {0}) }
{
    a.start <= b.end && b.start <= a.end
}

/// Two rows as one, if they are of one handler and their ranges meet.
pub fn joined(a: Guard, b: Guard) -> Option<Guard>
    ensures { IfSome result (λ g. AskAlike (guard_in g ∷ []) (guard_in a ∷ guard_in b ∷ [])) }
{
    if !is_last(Some(a.caught()), b.caught()) {
        return None;
    }
    if !do_meet(&a.row, &b.row) {
        return None;
    }
    let row = Row {
        start: a.row.start.min(b.row.start),
        end: a.row.end.max(b.row.end),
        handler: a.row.handler,
        catch_type: a.row.catch_type,
    };
    Some(Guard {
        row,
        catch: a.catch,
    })
}

// Puts the last row after the others, unless the next is joined to it: the one that is the last then.
fn put(guards: &mut Vec<Guard>, last: Option<Guard>, next: Guard) -> Result<Guard, AllocError>
    ensures { IfOk result (λ g. AskAlike (map guard_in guards.new.items ++ guard_in g ∷ [])
        ((map guard_in guards.old.items ++ opened last) ++ guard_in next ∷ [])) }
{
    let Some(last) = last else {
        return Ok(next);
    };
    if let Some(both) = joined(last, next) {
        return Ok(both);
    }
    guards.push(last)?;
    Ok(next)
}

// All of them, with the last, if there is one.
fn with_last(guards: Vec<Guard>, last: Option<Guard>) -> Result<Vec<Guard>, NoMemory>
    ensures { IfOk result (λ v. map guard_in v.items ≡ map guard_in guards.items ++ opened last) }
{
    let mut guards = guards;
    if let Some(last) = last {
        guards.push(last)?;
    }
    Ok(guards)
}

/// The rows in the order of their starts.
pub fn sorted(guards: Vec<Guard>) -> Result<Vec<Guard>, AllocError>
    ensures alike { IfOk result (λ v. AskAlike (map guard_in v.items) (map guard_in guards.items)) }
    ensures sorted { IfOk result (λ v. IsNonDecreasingBy start_of v.items) }
{
    let mut guards = guards;
    guards.sort_by_key(|guard| guard.row.start)?;
    Ok(guards)
}

/// The rows of an exception table with what each catches. They ask what the rows ask.
pub fn guards_of(
    alloc: Global,
    rows: &[Row],
    catches: &[Option<u32>],
) -> Result<Vec<Guard>, NoMemory>
    ensures { IfOk result (λ v.
        AskAlike (map guard_in v.items) (with_catches rows.now catches.now)) }
{
    let mut guards = Vec::new(alloc);
    let mut last = None;
    let mut rest = rows;
    let mut left = catches;
    while let Some((row, behind)) = rest.split_first() {
        let next = Guard {
            row: *row,
            catch: first_catch(left),
        };
        let put = put(&mut guards, last, next)?;
        last = Some(put);
        rest = behind;
        left = behind_first(left);
    }
    with_last(guards, last)
}
