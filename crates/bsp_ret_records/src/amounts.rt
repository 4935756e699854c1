//! Record 5, amounts.

ghost use Rattle.std.specs.Prelude.{◌≡◌, ◌<◌, ◌||◌, [], true, length, slice_index_or};
ghost use Rattle.std.specs.List.{list_all};
ghost use Rattle.bsp_fields.specs.Columns.{is_space};
ghost use Rattle.bsp_fields.specs.Taxes.{tax_fits, tax_places};
ghost use Rattle.bsp_ret_records.specs.Records.{IsFit, fare, rate, commission, amounts_fit};
ghost use Rattle.bsp_ret_records.specs.Values.{IsTax, AreAmounts};

use crate::columns::{amount_of, array_of};
use crate::transactions::{Amounts, Tax};
use bsp_fields::{all_spaces, is_amount, number_of, spells_at_most, tax_place, taxes_fit};

#[inline]
fn fare(line: &[u8]) -> &[u8]
    requires { length line.now ≡ 136 }
    ensures { result.now ≡ fare line.now }
{
    &line[7..18]
}

#[inline]
fn rate(line: &[u8]) -> &[u8]
    requires { length line.now ≡ 136 }
    ensures columns { result.now ≡ rate line.now }
    ensures wide { length result.now ≡ 5 }
{
    &line[96..101]
}

#[inline]
fn commission(line: &[u8]) -> &[u8]
    requires { length line.now ≡ 136 }
    ensures { result.now ≡ commission line.now }
{
    &line[101..112]
}

/// Whether the fields of a record 5 fit.
#[tactic(auto, unfolding(crate::specs::Records::amounts_fit))]
pub fn amounts_fit(line: &[u8]) -> bool
    requires { length line.now ≡ 136 }
    ensures { result ≡ amounts_fit line.now }
{
    is_amount(fare(line))
        && taxes_fit(line)
        && spells_at_most(10_000, rate(line))
        && is_amount(commission(line))
        && all_spaces(&line[112..136])
}

/// The tax of a place that is unused or fits.
fn tax_of(place: &[u8]) -> Option<Tax>
    requires wide { length place.now ≡ 13 }
    requires fits { (list_all is_space place.now || tax_fits place.now) ≡ true }
    ensures { IsTax place.now result }
{
    if place[0] == b' ' {
        return None;
    }
    Some(Tax {
        code: array_of::<2>(&place[..2]),
        amount: amount_of(&place[2..13]),
    })
}

/// The values of a record 5.
pub fn amounts_values(line: &[u8]) -> Amounts
    requires { IsFit amounts_fit line.now }
    ensures { AreAmounts line.now result }
{
    Amounts {
        fare: amount_of(fare(line)),
        taxes: [
            tax_of(tax_place(line, 0)),
            tax_of(tax_place(line, 1)),
            tax_of(tax_place(line, 2)),
            tax_of(tax_place(line, 3)),
            tax_of(tax_place(line, 4)),
            tax_of(tax_place(line, 5)),
        ],
        rate: number_of(rate(line)) as u16,
        commission: amount_of(commission(line)),
    }
}
