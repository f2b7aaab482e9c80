//! Arithmetic over whole numbers of 64 bits.
ghost use Rattle.std.specs.Prelude.{◌≡◌};
ghost use Rattle.chr_guard.specs.Values.{computed, compares};

use chr_rule::{Operator, Relation};

/// An operator's result, where it has one.
#[inline(always)]
pub fn compute(operator: Operator, a: i64, b: i64) -> Option<i64>
    ensures { result ≡ computed operator a b }
{
    match operator {
        Operator::Add => a.checked_add(b),
        Operator::Sub => a.checked_sub(b),
        Operator::Mul => a.checked_mul(b),
        Operator::Quot => a.checked_div(b),
        Operator::Rem => {
            if b == 0 {
                None
            } else {
                Some(a.wrapping_rem(b))
            }
        }
        Operator::Mod => {
            if 0 <= a && 0 < b {
                Some(a.wrapping_rem(b))
            } else if b == 0 {
                None
            } else {
                let r = a.wrapping_rem(b);
                if (r < 0 && 0 < b) || (0 < r && b < 0) {
                    r.checked_add(b)
                } else {
                    Some(r)
                }
            }
        }
    }
}

/// Whether the relation holds between two numbers.
#[inline(always)]
pub fn compare(relation: Relation, a: i64, b: i64) -> bool
    ensures { result ≡ compares relation a b }
{
    match relation {
        Relation::Less => a < b,
        Relation::LessEqual => a <= b,
        Relation::Greater => b < a,
        Relation::GreaterEqual => b <= a,
        Relation::Equal => a <= b && b <= a,
        Relation::Unequal => !(a <= b && b <= a),
    }
}
