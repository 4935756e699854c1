//! What of an agent's rows bears on a transaction, found by key.

ghost use Rattle.std.specs.Prelude.{◌≡◌, OnOk, false};
ghost use Rattle.bsp_book.specs.Calls.{FallsBack, Faults, Keeps, LeavesLast, LooksUp};
ghost use Rattle.bsp_rows.specs.Changes.{facts_at};
ghost use Rattle.bsp_desk_sales.specs.Serves.{Finds};
ghost use Rattle.bsp_desk_sales.specs.Counted.{count_at};

use bsp_book::{Book, BookFault};
use bsp_rows::{AgentCode, TallyKey, Transaction};
use bsp_rules::{Facts, facts_of};

/// How many transactions of the airline have been accepted for the agent in the target period; none without a
/// target.
fn count<B: Book>(
    book: &mut B,
    agent: AgentCode,
    transaction: &Transaction,
) -> Result<usize, BookFault>
    requires { B.means.has_failed book.old ≡ false }
    ensures { LooksUp B.means book.old book.new result (λ found. found) (count_at agent transaction.now) }
{
    let target = book.plan().target(transaction.issued);
    match target {
        Some(period) => {
            let tally = book.tally(TallyKey {
                agent,
                airline: transaction.document.airline,
                period,
            })?;
            Ok(tally.accepted as usize)
        }
        None => Ok(0),
    }
}

/// What of all rows of the agent bears on the transaction. Of its items those alone are read that share a
/// number with it.
pub(crate) fn facts<B: Book>(
    book: &mut B,
    agent: AgentCode,
    transaction: &Transaction,
) -> Result<Facts, BookFault>
    ensures found { Finds B.means book.old book.new result (λ rows facts. facts ≡ facts_at agent transaction.now rows) (λ rows. rows) }
    ensures ok { OnOk result (Keeps B.means book.old book.new) }
    ensures fault { Faults B.means book.old book.new (FallsBack B.means book.old book.new) (LeavesLast B.means book.old book.new) result }
{
    let token = book.agent_token(agent)?;
    let ranges = book.ranges(agent)?;
    let items = book.items_bearing(agent, transaction)?;
    let count = count(book, agent, transaction)?;
    let facts = facts_of(token.is_some(), &ranges, &items, transaction, book.plan());
    Ok(Facts { count, ..facts })
}
