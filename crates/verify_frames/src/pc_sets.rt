//! Sets of pcs, each as ranges.

ghost use Rattle.std.specs.Prelude.{◌≡◌, ◌∷◌, [], MatchBool};
ghost use Rattle.std.specs.Option.{option_copied};
ghost use Rattle.verify_frames.specs.PcSets as spec;
ghost use Rattle.verify_frames.specs.PcSets.{Covers, IsSuffix};

use class_model::Row;

/// The pcs from one on and before another.
#[derive(Clone, Copy)]
pub struct Span {
    pub from: u32,
    pub until: u32,
}

/// The pcs in some ranges.
#[derive(Drop)]
pub struct PcSet {
    pub spans: Vec<Span>,
}

/// The pcs in the range of a row.
pub fn row_span(row: &Row) -> Span
    ensures { result ≡ spec.row_span row.now }
{
    Span {
        from: row.start as u32,
        until: row.end as u32,
    }
}

// Whether a range has pcs in common with those from one on and before another.
fn meets(span: Span, from: u32, until: u32) -> bool
    ensures { result ≡ spec.meets span from until }
{
    span.from < until && from < span.until
}

/// Whether some of these pcs are among those from one on and before another.
pub fn meet(spans: &[Span], from: u32, until: u32) -> bool
    ensures { result ≡ spec.meet spans.now from until }
{
    spans.iter().any(|span| meets(*span, from, until))
}

// Whether a range lies in another.
fn is_within(span: Span, outer: Span) -> bool
    ensures { result ≡ spec.is_within span outer }
{
    outer.from <= span.from && span.until <= outer.until
}

// The ranges from the first one on in which a range lies. `None`: it lies in none of them.
fn from_outer(span: Span, outer: &[Span]) -> Option<&[Span]>
    ensures { IsSuffix span outer.now (option_copied result) }
{
    let mut rest = outer;
    while let Some((first, behind)) = rest.split_first() {
        if is_within(span, *first) {
            return Some(rest);
        }
        rest = behind;
    }
    None
}

/// Whether pcs are among others: ranges in order, each in one of the others, which are in order too.
pub fn covers(outer: &[Span], spans: &[Span]) -> bool
    ensures { MatchBool result (Covers outer.now spans.now) (Unit {0}) }
{
    let mut rest = outer;
    let mut left = spans;
    while let Some((span, behind)) = left.split_first() {
        let Some(suffix) = from_outer(*span, rest) else {
            return false;
        };
        rest = suffix;
        left = behind;
    }
    true
}

/// Whether a range lies in one of others, which is found at once where they are in order.
pub fn lies_in(span: Span, outer: &[Span]) -> bool
    ensures { MatchBool result (Covers outer.now (span ∷ [])) (Unit {0}) }
{
    let behind = outer.partition_point(|other| other.from <= span.from);
    match outer.get(behind.saturating_sub(1)) {
        Some(found) if is_within(span, *found) => true,
        _ => covers(outer, &[span]),
    }
}
