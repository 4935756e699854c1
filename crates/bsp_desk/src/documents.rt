//! A document of an agent, and its state.

ghost use Rattle.std.specs.List.{find};
ghost use Rattle.std.specs.Option.{option_copied};
ghost use Rattle.std.specs.Prelude.{◌≡◌, false};
ghost use Rattle.bsp_rules.specs.Rows.{is_living_relation};
ghost use Rattle.bsp_desk.specs.Documents.{is_canx_of, is_sale_of};
ghost use Rattle.bsp_desk_sales.specs.Serves.{EndsOnFault, ServesAgent};
ghost use Rattle.bsp_desk_sales.specs.Ledger.{first_of, state_of};
ghost use Rattle.bsp_desk_sales.specs.Requests.AgentRequest.{AskDocument};

use bsp_book::{Book, BookFault};
use bsp_messages::{Answer, DocumentShown, DocumentState, RequestRefusal};
use bsp_rows::{AgentCode, DocNumber, TransactionCode};
use bsp_rules::{Item, is_living_relation};

/// The TKTT or RFND of a number.
fn sale_of<'a>(number: &[u8; 10], items: &'a [Item]) -> Option<&'a Item>
    ensures { option_copied result ≡ find (is_sale_of number.now) items.now }
{
    items.iter().find(|item| {
        item.transaction.document.number == *number
            && item.transaction.code != TransactionCode::Canx
    })
}

/// The CANX of a number.
fn canx_of<'a>(number: &[u8; 10], items: &'a [Item]) -> Option<&'a Item>
    ensures { option_copied result ≡ find (is_canx_of number.now) items.now }
{
    items.iter().find(|item| {
        item.transaction.document.number == *number
            && item.transaction.code == TransactionCode::Canx
    })
}

/// The TKTT or RFND of a number, else its CANX.
fn item_of(number: &[u8; 10], items: &[Item]) -> Option<Item>
    ensures { result ≡ first_of (find (is_sale_of number.now) items.now) (find (is_canx_of number.now) items.now) }
{
    match sale_of(number, items).copied() {
        Some(item) => Some(item),
        None => canx_of(number, items).copied(),
    }
}

/// The living TKTT or RFND that relates to the number.
fn relation_to<'a>(number: &[u8; 10], items: &'a [Item]) -> Option<&'a Item>
    ensures { option_copied result ≡ find (is_living_relation number.now) items.now }
{
    items.iter().find(|item| is_living_relation(item, number))
}

/// The state of an item: cancelled where it does not live or is a CANX, else by the living relation to its number.
fn state_of(item: &Item, items: &[Item]) -> DocumentState
    ensures { result ≡ state_of items.now item.now }
{
    if item.transaction.code == TransactionCode::Canx || !item.lives {
        return DocumentState::Cancelled;
    }
    match relation_to(&item.transaction.document.number, items) {
        Some(relation) => match relation.transaction.code {
            TransactionCode::Tktt => DocumentState::Exchanged,
            TransactionCode::Rfnd => DocumentState::Refunded,
            TransactionCode::Canx => DocumentState::Alive,
        },
        None => DocumentState::Alive,
    }
}

/// Shows a document of an agent: the TKTT or RFND of the number, else its CANX, and its state.
///
/// The answer is D01 where the agent has no item of the number. The rows stay as they are. It reads the items
/// that bear the number alone.
///
/// # Errors
///
/// `NoRoom` where an allocation was refused, or `Failed`.
pub fn document<B: Book>(book: &mut B, agent: AgentCode, number: &[u8]) -> Result<Answer, BookFault>
    requires works { B.means.has_failed book.old ≡ false }
    ensures served { ServesAgent B.means book.old book.new result agent (AskDocument number.now) }
    ensures fault { EndsOnFault B.means book.old book.new result }
{
    let Ok(document) = DocNumber::read_unchecked(number) else {
        return Ok(Answer::Refused(RequestRefusal::NoDocument));
    };
    let digits = document.digits();
    let items = book.items_with_number(agent, &digits)?;
    match item_of(&digits, &items) {
        Some(item) => {
            let state = state_of(&item, &items);
            Ok(Answer::Document(DocumentShown { item, state }))
        }
        None => Ok(Answer::Refused(RequestRefusal::NoDocument)),
    }
}
