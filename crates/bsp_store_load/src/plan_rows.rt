//! All rows of the plan's tables, and what the rows of a table read as.

ghost use Rattle.std.specs.Prelude.{◌≡◌, List, IfOk, IsSomeAnd, Some};
ghost use Rattle.bsp_store_load.specs.Stored.{AreReadAs};
ghost use Rattle.sqlite_value.specs.Order.{Row as Values};

use sqlite::Row;
use std::alloc::{AllocError, Global};

/// All rows of the plan's six tables, those of each in the order of its keys or of its places.
#[derive(Drop)]
pub struct PlanRows {
    /// Version, business day and the count of closed periods.
    pub meta: Vec<Row>,
    /// Terms of the market.
    pub terms: Vec<Row>,
    /// Airlines that are published or registered.
    pub airlines: Vec<Row>,
    /// Rates of commission.
    pub rates: Vec<Row>,
    /// Billing periods.
    pub periods: Vec<Row>,
    /// Taxes on commission.
    pub commission_taxes: Vec<Row>,
}

/// A table whose rows read as values.
pub(crate) trait ReadsAs<V> {
    // a value that the table may have, and a row of it
    ghost is_in: { V → Values → Type 0 };

    /// What a row reads as.
    fn read(&self, row: &Row) -> Option<V>
        ensures { (value : V) → is_in value row.now → result ≡ Some value };
}

/// What the rows read as, in their order; none where one reads as none.
pub(crate) fn read_all<V: Drop, T: ReadsAs<V>>(
    alloc: Global,
    table: &T,
    rows: &[Row],
) -> Result<Option<Vec<V>>, AllocError>
    ensures { IfOk result (λ found. (values : List V) → AreReadAs T.is_in rows.now values → IsSomeAnd found (λ v. v.items ≡ values)) }
{
    let mut found = Vec::new(alloc);
    for row in rows {
        let Some(value) = table.read(row) else {
            return Ok(None);
        };
        found.push(value)?;
    }
    Ok(Some(found))
}
