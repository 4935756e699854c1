//! The amounts of a memo.

ghost use Rattle.std.specs.Prelude.{◌≡◌, ◌&&◌, not, pos, int_le, int_lt, [], ◌∷◌};
ghost use Rattle.bsp_fields.specs.FirstFault.{first_fault_or};
ghost use Rattle.bsp_memos.specs.Memos.{is_amount};

use crate::fault::MemoFault;
use bsp_fields::Amount;

/// The amount of a memo, from 1 to 99,999,999,999 minor units.
pub(crate) fn issued_amount(amount: i64) -> Result<Amount, MemoFault>
    ensures { result ≡ first_fault_or ((not (is_amount amount), MemoFault.AmountOutOfRange) ∷ []) amount }
{
    match Amount::new(amount) {
        Ok(units) if amount >= 1 => Ok(units),
        _ => Err(MemoFault::AmountOutOfRange),
    }
}

/// The amount to which a memo is reduced, from 1 to below the old one.
pub(crate) fn reduced_amount(old: Amount, amount: i64) -> Result<Amount, MemoFault>
    ensures { result ≡ first_fault_or
        ((not (int_le (pos 1) amount && int_lt amount old), MemoFault.AmountOutOfRange) ∷ []) amount }
{
    match Amount::new(amount) {
        Ok(units) if amount >= 1 && amount < old.get() => Ok(units),
        _ => Err(MemoFault::AmountOutOfRange),
    }
}
