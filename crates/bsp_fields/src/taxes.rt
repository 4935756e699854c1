//! Tax places.

ghost use Rattle.std.specs.Prelude.{◌≡◌, ◌<◌, ◌≤◌, [], length, slice_index_or};
ghost use Rattle.bsp_fields.specs.Taxes.{tax_code, tax_fits, taxes_fit, tax_places, taxes_from};

use crate::characters::{all_letters_or_digits, all_spaces};
use crate::fields::is_amount;

/// The characters of a tax code as a number, which orders codes by their bytes.
#[inline]
pub fn tax_code(place: &[u8]) -> u16
    requires { 2 ≤ length place.now }
    ensures { result ≡ tax_code place.now }
{
    u16::from_be_bytes([place[0], place[1]])
}

#[inline]
fn tax_fits(place: &[u8]) -> bool
    requires { length place.now ≡ 13 }
    ensures { result ≡ tax_fits place.now }
{
    all_letters_or_digits(&place[..2]) && is_amount(&place[2..13])
}

/// The characters of taxes from the place of that index on: six places of 13 characters, in columns
/// 19 to 96.
#[inline]
fn taxes_from(line: &[u8], index: usize) -> &[u8]
    requires wide { 96 ≤ length line.now }
    requires inside { index < 6 }
    ensures { result.now ≡ taxes_from line.now index }
{
    &line[18 + 13 * index..96]
}

/// The tax place of that index, from 0 to 5: a code and an amount, or spaces.
#[tactic(auto, using(crate::proofs::TaxPlaces::place_cut))]
#[inline]
pub fn tax_place(line: &[u8], index: usize) -> &[u8]
    requires wide { 96 ≤ length line.now }
    requires inside { index < 6 }
    ensures place { result.now ≡ slice_index_or (tax_places line.now) index [] }
    ensures wide { length result.now ≡ 13 }
{
    &taxes_from(line, index)[..13]
}

/// Whether the six places of taxes have the used ones first, with codes that rise, and spaces behind
/// them.
#[inline]
pub fn taxes_fit(line: &[u8]) -> bool
    requires { 96 ≤ length line.now }
    ensures { result ≡ taxes_fit 0 (tax_places line.now) }
{
    let mut before = 0;
    for index in 0..6 {
        let place = tax_place(line, index);
        if place[0] == b' ' {
            return all_spaces(taxes_from(line, index));
        }
        let code = tax_code(place);
        if !tax_fits(place) || code <= before {
            return false;
        }
        before = code;
    }
    true
}
