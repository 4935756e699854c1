//! The sums of an agent in a period.

ghost use Rattle.std.specs.Prelude.{◌≡◌, ◌<◌, ◌≤◌, ◌^◌, false, All, length, map};
ghost use Rattle.std.specs.List.{sum_by};
ghost use Rattle.bsp_statement.specs.Nets.{net_of_postings};
ghost use Rattle.bsp_statement.specs.Sides.{AreOnce};
ghost use Rattle.bsp_statement.specs.Tallies.{tally_posting, tally_postings};
ghost use Rattle.bsp_desk.specs.Sums.{shown_over};
ghost use Rattle.bsp_desk_sales.specs.Serves.{EndsOnFault, ServesAgent};
ghost use Rattle.bsp_desk_sales.specs.Requests.AgentRequest.{AskPeriod};

use bsp_book::{Book, BookFault};
use bsp_messages::{Answer, PeriodShown, RequestRefusal};
use bsp_rows::{AgentCode, PeriodCode, Tallies};
use bsp_statement::{Posting, Tally};

/// What a tally posts. Its airline's code has three digits.
fn posting_of(tally: Tally) -> Posting
    ensures value { result ≡ tally_posting tally }
    ensures code { tally.airline < 10 ^ 3 }
{
    tally.posting()
}

/// How many documents the tallies of a period have. The count of 1,000 tallies fits.
fn documents_over(period: PeriodCode, tallies: &[Tally]) -> u64
    ensures sum { length tallies.now ≤ 1000 → result ≡ sum_by (λ p. p.documents) (tally_postings period tallies.now) }
    ensures codes { All (λ t. t.airline < 10 ^ 3) tallies.now }
{
    let mut documents = 0_u64;
    for tally in tallies {
        let posting = posting_of(*tally);
        if tally.is_used_in(period) {
            documents = documents.saturating_add(u64::from(posting.documents));
        }
    }
    documents
}

/// The net of the tallies of a period, in minor units, less the tax on commission. The sum of 1,000 tallies fits.
fn net_over(period: PeriodCode, tallies: &[Tally]) -> i128
    ensures { length tallies.now ≤ 1000 → result ≡ net_of_postings (tally_postings period tallies.now) }
{
    let mut net = 0_i128;
    for tally in tallies {
        if tally.is_used_in(period) {
            net = net.saturating_add(tally.posting().net());
        }
    }
    net
}

/// What the tallies of an agent in a period add up to, of which there is one for each airline.
fn shown_over(period: PeriodCode, closed: bool, tallies: &[Tally]) -> PeriodShown
    ensures { AreOnce (map (λ t. t.airline) tallies.now) → result ≡ shown_over closed period (tally_postings period tallies.now) }
{
    PeriodShown {
        closed,
        documents: documents_over(period, tallies),
        net: net_over(period, tallies),
        period,
    }
}

/// Shows a period of an agent: whether it is closed, and how many living TKTT and RFND the agent
/// has in it. It also shows what the agent owes for it, billed memos included.
///
/// The answer is S01 where the period is unknown. The rows stay as they are.
///
/// # Errors
///
/// `NoRoom` where an allocation was refused, or `Failed`.
pub fn period<B: Book>(book: &mut B, agent: AgentCode, period: &[u8]) -> Result<Answer, BookFault>
    requires works { B.means.has_failed book.old ≡ false }
    ensures served { ServesAgent B.means book.old book.new result agent (AskPeriod period.now) }
    ensures fault { EndsOnFault B.means book.old book.new result }
{
    let Ok(code) = PeriodCode::read(period) else {
        return Ok(Answer::Refused(RequestRefusal::UnknownPeriod));
    };
    let Some((_, closed)) = book.plan().period(code) else {
        return Ok(Answer::Refused(RequestRefusal::UnknownPeriod));
    };
    let tallies = book.tallies(Tallies::OfAgentIn(agent, code))?;
    Ok(Answer::Period(shown_over(code, closed, &tallies)))
}
