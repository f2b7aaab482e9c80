//! The numbers that digits spell.
ghost use Rattle.std.specs.Prelude.{◌≡◌, ◌≤◌, ◌+◌, ◌-◌, ◌*◌, ◌^◌, false, Some, is_none, MatchOption};
ghost use Rattle.chr_limits.specs.Numbers.{decimal_from, whole_number};

fn with_digit(number: u64, digit: u8) -> Option<u64>
    ensures { MatchOption result (2 ^ 64 ≤ number * 10 + (digit - 48)) (λ n. n ≡ number * 10 + (digit - 48)) }
{
    number
        .checked_mul(10)?
        .checked_add(u64::from(digit.saturating_sub(b'0')))
}

#[tactic(auto, using(crate::proofs::Arguments::decimal_least))]
/// The number of the digits, unless it passes 64 bits.
fn magnitude(digits: &[u8]) -> Option<u64>
    ensures { MatchOption result (2 ^ 64 ≤ decimal_from 0 digits.now) (λ n. n ≡ decimal_from 0 digits.now) }
{
    let mut number: u64 = 0;
    let mut rest = digits;
    while let [digit, after @ ..] = rest {
        match with_digit(number, *digit) {
            Some(more) => number = more,
            None => return None,
        }
        rest = after;
    }
    Some(number)
}

/// The whole number of 64 bits that the sign and the digits spell.
pub fn int(negative: bool, digits: &[u8]) -> Option<i64>
    ensures { result ≡ whole_number negative digits.now }
{
    let number = magnitude(digits)?;
    if negative {
        if number == 0 {
            Some(0)
        } else if number <= 0x8000_0000_0000_0000 {
            Some(-((number - 1) as i64) - 1)
        } else {
            None
        }
    } else if number < 0x8000_0000_0000_0000 {
        Some(number as i64)
    } else {
        None
    }
}

/// The whole number that the sign and the digits spell, which is in the range of 64 bits with sign.
pub fn int_in_range(negative: bool, digits: &[u8]) -> i64
    requires { is_none (whole_number negative digits.now) ≡ false }
    ensures { Some result ≡ whole_number negative digits.now }
{
    match int(negative, digits) {
        Some(number) => number,
        // It is in range.
        None => 0,
    }
}
