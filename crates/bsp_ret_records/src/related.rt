//! Record 3, a related document.

ghost use Rattle.std.specs.Prelude.{◌≡◌, length};
ghost use Rattle.bsp_ret_records.specs.Records.{IsFit, related_document, related_order, related_fits};
ghost use Rattle.bsp_ret_records.specs.Values.{IsRelated};

use crate::columns::document_of;
use crate::transactions::ReportedDocument;
use bsp_fields::{all_digits, all_spaces, number_of};

#[inline]
fn related_document(line: &[u8]) -> &[u8]
    requires { length line.now ≡ 136 }
    ensures columns { result.now ≡ related_document line.now }
    ensures wide { length result.now ≡ 14 }
{
    &line[7..21]
}

/// Whether the fields of a record 3 fit.
#[tactic(auto, unfolding(crate::specs::Records::related_fits))]
pub fn related_fits(line: &[u8]) -> bool
    requires { length line.now ≡ 136 }
    ensures { result ≡ related_fits line.now }
{
    all_digits(related_document(line)) && all_spaces(&line[21..136])
}

/// The airline and the document of a record 3 as the number that their thirteen digits write, by
/// which two records 3 are in order.
#[tactic(auto, using(crate::proofs::ReadLemmas::order_digits))]
pub fn related_order(line: &[u8]) -> u64
    requires { IsFit related_fits line.now }
    ensures { result ≡ related_order line.now }
{
    number_of(&related_document(line)[..13])
}

/// The document of a record 3.
#[tactic(auto, using(crate::proofs::ReadLemmas::related_digits))]
pub fn related_values(line: &[u8]) -> ReportedDocument
    requires { IsFit related_fits line.now }
    ensures { IsRelated line.now result }
{
    document_of(related_document(line))
}
