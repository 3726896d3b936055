ghost use Rattle.std.specs.Prelude.{◌≡◌};
ghost use Rattle.instruction_rows.specs.Comparisons.{compares};

use opcodes::Comparison;

/// Whether `a` stands in this order to `b` (JVMS 6.5: if<cond>, if_icmp<cond>).
pub fn compares(order: Comparison, a: i32, b: i32) -> bool
    ensures { result ≡ compares order a b }
{
    match order {
        Comparison::Equal => a == b,
        Comparison::Unequal => a != b,
        Comparison::Less => a < b,
        Comparison::GreaterOrEqual => a >= b,
        Comparison::Greater => a > b,
        Comparison::LessOrEqual => a <= b,
    }
}
