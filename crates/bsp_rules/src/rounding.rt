//! Commission, rounded for each transaction.

ghost use Rattle.std.specs.Prelude.{◌≡◌, ◌≤◌, ◌<◌, ◌+◌, ◌*◌, ◌^◌, ℤ, FitsSigned, unsigned_abs};
ghost use Rattle.std.specs.Int.{w64};
ghost use Rattle.std.specs.Ordering.{int_eq};
ghost use Rattle.bsp_rules.specs.Commission.{IsCommission, commission_on, is_commission};

/// The size of the commission on a basis of that size.
fn rounded_size(rate: u16, size: u64) -> u128
    ensures not_above { 10_000 * result ≤ rate * size + 5_000 }
    ensures not_below { rate * size + 5_000 < 10_000 * result + 10_000 }
    ensures small { result < 2 ^ 80 }
{
    (rate as u128 * size as u128 + 5_000) / 10_000
}

/// The commission at a rate that may be above 10,000.
pub(crate) fn rounded(rate: u16, basis: i64) -> i128
    ensures value { (amount : ℤ) → is_commission rate basis amount ≡ int_eq amount result }
    ensures fits { rate ≤ 10_000 → FitsSigned w64 result }
    ensures size { rate ≤ 10_000 → unsigned_abs result ≤ unsigned_abs basis }
{
    let size = rounded_size(rate, basis.unsigned_abs()) as i128;
    if basis < 0 { -size } else { size }
}

/// The commission on a basis, in minor units, at a rate in hundredths of a percent of at most
/// 10,000. It is the whole number nearest to `rate * basis / 10,000`, and of two such the one of
/// greater size. Its size is at most that of the basis.
pub fn commission(rate: u16, basis: i64) -> i64
    requires { rate ≤ 10_000 }
    ensures value { IsCommission rate basis result }
    ensures only { (amount : ℤ) → is_commission rate basis amount ≡ int_eq amount result }
    ensures number { result ≡ commission_on rate basis }
    ensures size { unsigned_abs result ≤ unsigned_abs basis }
{
    rounded(rate, basis) as i64
}
