//! Amounts as text: units, a point and two digits.

ghost use Rattle.std.specs.Prelude.{◌≡◌, ◌++◌, IfOk, OnOk, string_bytes};
ghost use Rattle.bsp_fields.specs.Money.{money_text};

use crate::digits::write_digits;
use itoa::Buffer;
use std::alloc::{AllocError, Global};
use thiserror::Error;

/// An allocation was refused.
#[derive(Clone, Copy, Debug, PartialEq, Eq, Error)]
#[error("out of memory")]
pub struct NoRoom;

impl From<AllocError> for NoRoom {
    fn from(_: AllocError) -> NoRoom {
        NoRoom
    }
}

/// Writes minor units (hundredths of the currency) as money text: units, a point and two digits,
/// with `-` in front below zero, as `-0.05`, `0.00` and `225.00`.
///
/// # Errors
///
/// `NoRoom` where an allocation was refused, and for no other cause.
pub fn write_money(alloc: Global, amount: i128) -> Result<String, NoRoom>
    ensures { IfOk result (λ text. string_bytes text ≡ money_text amount) }
{
    let size = amount.unsigned_abs();
    let units = size / 100;
    let cents = (size % 100) as u8;
    let sign = if amount < 0 { "-" } else { "" };
    Ok(format!(in alloc; "{sign}{units}.{cents:02}")?)
}

/// Appends an amount of minor units (hundredths of the currency) as money text. Where it errs, a
/// part of the text may be appended.
///
/// # Errors
///
/// `NoRoom` where an allocation was refused, and for no other cause.
#[inline]
pub fn push_money(out: &mut Vec<u8>, amount: i64) -> Result<(), NoRoom>
    ensures { OnOk result (out.new.items ≡ out.old.items ++ money_text amount) }
{
    if amount < 0 {
        out.extend_from_slice(b"-")?;
    }
    let size = amount.unsigned_abs();
    let mut units = Buffer::new();
    out.extend_from_slice(units.format(size / 100).as_bytes())?;
    let [tens, ones] = write_digits::<2>(size % 100);
    out.extend_from_slice(&[b'.', tens, ones])?;
    Ok(())
}
