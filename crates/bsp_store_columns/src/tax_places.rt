//! The six places of the taxes of an item, as RET and HOT have them: each has thirteen characters.

ghost use Rattle.std.specs.Prelude.{◌≡◌, ◌≤◌, ◌+◌, drop, IfSome, IsTrue, ◌↔◌, length, List, map, Option, Some, take, true, ℕ};
ghost use Rattle.std.specs.List.{concat};
ghost use Rattle.bsp_ret_writer.specs.Columns.{columns};
ghost use Rattle.bsp_rows.specs.GroupValues.{are_taxes};
ghost use Rattle.bsp_rows.specs.Stored.{InEach, IsStoredTax};
ghost use Rattle.bsp_rows.specs.Tax.{Tax as TaxValue};
ghost use Rattle.bsp_rows.specs.Writing.{tax_text};
ghost use Rattle.bsp_store_columns.specs.TaxPlaces.{tax_in, taxes_in};

use bsp_fields::read_amount;
use bsp_ret_writer::write_tax;
use bsp_rows::Tax;

/// The places as they are written.
#[tactic(auto, using(bsp_ret_writer::proofs::WritingLemmas::six_elements))]
pub(crate) fn places_of(taxes: &[Option<Tax>; 6]) -> [[u8; 13]; 6]
    ensures { result ≡ map tax_text taxes.now }
{
    [
        write_tax(taxes[0]),
        write_tax(taxes[1]),
        write_tax(taxes[2]),
        write_tax(taxes[3]),
        write_tax(taxes[4]),
        write_tax(taxes[5]),
    ]
}

fn code_of(place: &[u8]) -> [u8; 2]
    requires { length place.now ≡ 13 }
    ensures { result ≡ columns 1 2 place.now }
{
    [place[0], place[1]]
}

fn read_tax(place: &[u8]) -> Option<Option<Tax>>
    requires { length place.now ≡ 13 }
    ensures { result ≡ tax_in place.now }
{
    if place[0] == b' ' {
        return Some(None);
    }
    let amount = read_amount(&place[2..13]).ok()?;
    Some(Some(Tax {
        code: code_of(place),
        amount,
    }))
}

fn first_tax(text: &[u8]) -> Option<Option<Tax>>
    requires { 13 ≤ length text.now }
    ensures { result ≡ tax_in (take 13 text.now) }
{
    read_tax(&text[..13])
}

fn behind(text: &[u8]) -> &[u8]
    requires { 13 ≤ length text.now }
    ensures value { result.now ≡ drop 13 text.now }
    ensures len { length result.now + 13 ≡ length text.now }
{
    &text[13..]
}

fn taxes_of(text: &[u8]) -> Option<[Option<Tax>; 6]>
    requires { length text.now ≡ 78 }
    ensures { result ≡ taxes_in 6 text.now }
{
    let first = first_tax(text)?;
    let text = behind(text);
    let second = first_tax(text)?;
    let text = behind(text);
    let third = first_tax(text)?;
    let text = behind(text);
    let fourth = first_tax(text)?;
    let text = behind(text);
    let fifth = first_tax(text)?;
    let text = behind(text);
    let sixth = first_tax(text)?;
    Some([first, second, third, fourth, fifth, sixth])
}

/// Whether a text is that of these taxes.
#[tactic(auto, using(crate::proofs::Words::flat_concat))]
fn is_text_of(text: &[u8], taxes: &[Option<Tax>; 6]) -> bool
    ensures { IsTrue result ↔ (text.now ≡ concat (map tax_text taxes.now)) }
{
    text == places_of(taxes).as_flattened()
}

/// The taxes whose text this is; none where it is that of none.
pub(crate) fn written_taxes(text: &[u8]) -> Option<[Option<Tax>; 6]>
    ensures row { IfSome result (λ taxes. text.now ≡ concat (map tax_text taxes)) }
    ensures back { (taxes : List (Option TaxValue)) → length taxes ≡ 6 → InEach IsStoredTax taxes → are_taxes 0 taxes ≡ true → text.now ≡ concat (map tax_text taxes) → result ≡ Some taxes }
{
    if text.len() != 78 {
        return None;
    }
    let taxes = taxes_of(text)?;
    if !is_text_of(text, &taxes) {
        return None;
    }
    Some(taxes)
}
