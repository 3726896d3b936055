use items::Items;

/// The operands of `tableswitch` (JVMS 6.5): the targets are those for `low` and the ints after it, so that the highest
/// is `low` plus their number less 1. A target is a pc.
#[derive(Drop)]
pub struct TableSwitch {
    pub default: i64,
    pub low: i32,
    pub targets: Items<i64>,
}

/// An int, and the pc that a `lookupswitch` goes to for it (JVMS 6.5).
#[derive(Clone, Copy)]
pub struct Match {
    pub value: i32,
    pub target: i64,
}

/// The operands of `lookupswitch` (JVMS 6.5). The values rise.
#[derive(Drop)]
pub struct LookupSwitch {
    pub default: i64,
    pub matches: Items<Match>,
}
