//! The fields of tax places.

ghost use Rattle.std.specs.Prelude.{◌≡◌, ◌+◌, ◌*◌, ◌<◌, ◌≤◌, length, true, false, IfSome, IfNone};
ghost use Rattle.bsp_explain.specs.Fields.{all_fit, first_unfit, IsAtFault};
ghost use Rattle.bsp_explain.specs.TaxFields.{place_at, is_after_unused, code_before, unused_place_fields, used_place_fields, place_fields, tax_fields};

use crate::field::{Field, field, first_unfit};
use crate::form::Form;
use crate::name::Name;
use bsp_fields::{all_spaces, tax_code};

/// The tax place of that index, from 0 to 5, where the first one begins in that column.
fn place_at(start: u8, line: &[u8], index: u8) -> &[u8]
    requires wide { length line.now ≡ 136 }
    requires from { 1 ≤ start }
    requires to { start ≤ 33 }
    requires inside { index < 6 }
    ensures place { result.now ≡ place_at start line.now index }
    ensures wide { length result.now ≡ 13 }
{
    let first = (start + 13 * index) as usize;
    &line[first - 1..first + 12]
}

/// Whether the place before is unused.
fn is_after_unused(start: u8, line: &[u8], index: u8) -> bool
    requires wide { length line.now ≡ 136 }
    requires from { 1 ≤ start }
    requires to { start ≤ 33 }
    requires inside { index < 6 }
    ensures { result ≡ is_after_unused start line.now index }
{
    index > 0 && all_spaces(place_at(start, line, index - 1))
}

/// The tax code of the place before as a number, 0 where there is none.
fn code_before(start: u8, line: &[u8], index: u8) -> u16
    requires wide { length line.now ≡ 136 }
    requires from { 1 ≤ start }
    requires to { start ≤ 33 }
    requires inside { index < 6 }
    ensures { result ≡ code_before start line.now index }
{
    if index == 0 {
        0
    } else {
        tax_code(place_at(start, line, index - 1))
    }
}

/// The first field of a place after an unused one that is not in its form.
fn unused_field(line: &[u8], first: u8, number: u8) -> Option<Field>
    requires wide { length line.now ≡ 136 }
    requires from { 1 ≤ first }
    requires to { first ≤ 124 }
    ensures first { result ≡ first_unfit line.now (unused_place_fields first number) }
    ensures none { IfNone result (all_fit line.now (unused_place_fields first number) ≡ true) }
    ensures some { IfSome result (λ field. IsAtFault line.now field × (all_fit line.now (unused_place_fields first number) ≡ false)) }
{
    let last = first + 12;
    first_unfit(
        line,
        &[field!(first, last, Form::Unused, Name::TaxPlace(number))],
    )
}

/// The first field of a tax that is not in its form.
fn used_field(line: &[u8], first: u8, number: u8, before: u16) -> Option<Field>
    requires wide { length line.now ≡ 136 }
    requires from { 1 ≤ first }
    requires to { first ≤ 124 }
    ensures first { result ≡ first_unfit line.now (used_place_fields first number before) }
    ensures none { IfNone result (all_fit line.now (used_place_fields first number before) ≡ true) }
    ensures some { IfSome result (λ field. IsAtFault line.now field × (all_fit line.now (used_place_fields first number before) ≡ false)) }
{
    let second = first + 1;
    let third = first + 2;
    let last = first + 12;
    first_unfit(
        line,
        &[
            field!(first, second, Form::LettersOrDigits, Name::TaxCode(number)),
            field!(first, second, Form::Above(before), Name::TaxPlace(number)),
            field!(third, last, Form::Amount, Name::TaxAmount(number)),
        ],
    )
}

/// The first field of the place of that index that is not in its form.
#[tactic(auto, using(crate::proofs::TaxLemmas::blank_place, crate::proofs::TaxLemmas::blank_fits), unfolding(crate::specs::TaxFields::place_fields))]
fn place_field(line: &[u8], start: u8, index: u8) -> Option<Field>
    requires wide { length line.now ≡ 136 }
    requires from { 1 ≤ start }
    requires to { start ≤ 33 }
    requires inside { index < 6 }
    ensures first { result ≡ first_unfit line.now (place_fields start line.now index) }
    ensures none { IfNone result (all_fit line.now (place_fields start line.now index) ≡ true) }
    ensures some { IfSome result (λ field. IsAtFault line.now field × (all_fit line.now (place_fields start line.now index) ≡ false)) }
{
    let first = start + 13 * index;
    let number = index + 1;
    if all_spaces(place_at(start, line, index)) {
        None
    } else if is_after_unused(start, line, index) {
        unused_field(line, first, number)
    } else {
        used_field(line, first, number, code_before(start, line, index))
    }
}

/// The first field of the six places that is not in its form, where the first place begins in that
/// column.
pub fn tax_field(line: &[u8], start: u8) -> Option<Field>
    requires wide { length line.now ≡ 136 }
    requires from { 1 ≤ start }
    requires to { start ≤ 33 }
    ensures first { result ≡ first_unfit line.now (tax_fields start line.now) }
    ensures none { IfNone result (all_fit line.now (tax_fields start line.now) ≡ true) }
    ensures some { IfSome result (λ field. IsAtFault line.now field × (all_fit line.now (tax_fields start line.now) ≡ false)) }
{
    for index in 0..6 {
        if let Some(field) = place_field(line, start, index) {
            return Some(field);
        }
    }
    None
}
