//! The tax on the commission of an item.

ghost use Rattle.std.specs.Prelude.{◌≡◌};
ghost use Rattle.bsp_store_columns.specs.Taxes.{tax_with};

use bsp_rows::{Amount, Item};

/// The tax on the commission of an item, and what was taken for it.
#[derive(Clone, Copy, PartialEq, Eq, Drop)]
pub struct ItemTax {
    /// The tax.
    pub tax: Amount,
    /// The hundredths of a percent that were taken for the tax.
    pub hundredths: u16,
}

impl ItemTax {
    /// That of an item.
    pub fn of(item: &Item) -> ItemTax
        ensures { result ≡ tax_with item.now }
    {
        ItemTax {
            tax: item.tax,
            hundredths: item.hundredths,
        }
    }
}
