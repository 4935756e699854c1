//! What an agent owes over all periods.

ghost use Rattle.std.specs.Prelude.{◌≡◌, ◌≤◌, ◌^◌, IfOk, IsOkUnless, Option, length, map, unsigned_abs};
ghost use Rattle.bsp_statement.specs.Nets.{net_of_postings};
ghost use Rattle.bsp_statement.specs.Tallies.{tally_posting};
ghost use Rattle.bsp_rows.specs.Rows.{Rows};
ghost use Rattle.bsp_book.specs.Listed.{meaning};
ghost use Rattle.bsp_judge.specs.Judged.{owed};

use crate::setup::JudgeFault;
use bsp_book::ListBook;
use bsp_fields::AgentCode;
use bsp_rows::Tallies;
use bsp_statement::Tally;
use std::alloc::Global;

/// The net of tallies, in minor units. That of all that a memory holds fits.
fn net_of(tallies: &[Tally]) -> i128
    requires { length tallies.now ≤ 2 ^ 58 }
    ensures net { result ≡ net_of_postings (map tally_posting tallies.now) }
    ensures bound { unsigned_abs result ≤ 2 ^ 123 }
{
    let mut net = 0_i128;
    for tally in tallies {
        net += tally.posting().net();
    }
    net
}

/// What an agent owes, in minor units.
///
/// # Errors
///
/// `Memory`, where an allocation was refused.
pub(crate) fn owed(alloc: Global, book: &ListBook, agent: AgentCode) -> Result<i128, JudgeFault>
    ensures net { IfOk result (λ net. (rows : Rows) (begun : Option Rows) → meaning.holds book.now rows begun → net ≡ owed agent rows) }
    ensures bound { IfOk result (λ net. unsigned_abs net ≤ 2 ^ 123) }
    ensures fault { IsOkUnless result JudgeFault.Memory }
{
    match book.tables().tallies(alloc, &Tallies::OfAgent(agent)) {
        Ok(tallies) => Ok(net_of(&tallies)),
        Err(_) => Err(JudgeFault::Memory),
    }
}
