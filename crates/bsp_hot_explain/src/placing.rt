//! Whether a record may come where it is.

ghost use Rattle.std.specs.Prelude.{◌≡◌, true};
ghost use Rattle.bsp_hot_check.specs.Standings.{is_agent_after, is_key_after, is_at, is_totalled};
ghost use Rattle.bsp_hot_explain.specs.Comparisons.{is_in_order, is_in_place, part_in_place};

use bsp_hot_check::{DocumentKey, Place, Standing};
use bsp_hot_records::{AgentDigits, Heading, Part, Record};

/// Whether a record of a document may come here, whatever the airline of a related document.
fn part_in_place(place: Place, heading: Option<Heading>, part: Part) -> bool
    ensures { result ≡ part_in_place place heading part }
{
    let (Place::InDocument(progress), Some(heading)) = (place, heading) else {
        return false;
    };
    match part {
        Part::Related(other) => progress.takes_related(other.number),
        _ => progress.takes(heading.airline, part),
    }
}

/// Whether a record of this name may come here.
pub(crate) fn is_in_place(at: &Standing, found: &Record) -> bool
    ensures { result ≡ is_in_place at.now found.now }
{
    let headed = at.heading.is_some();
    let opened = at.agent.is_some();
    match found {
        Record::FileHeader(_) => matches!(at.place, Place::Start),
        Record::PeriodHeader(_) => matches!(at.place, Place::Headed) && headed,
        Record::OfficeHeader(_) => matches!(at.place, Place::Between) && headed,
        Record::TransactionHeader(_) => at.place.takes_transaction() && headed,
        Record::Document(_) => matches!(at.place, Place::Begun) && opened,
        Record::PartOf(next) => part_in_place(at.place, at.heading, next.part),
        Record::CodeTotals(_) => at.office.codes.next_code(at.place).is_some() && opened,
        Record::OfficeTotals(_) => matches!(at.place, Place::Totalled(_))
            && at.office.codes.next_code(at.place).is_none()
            && opened,
        Record::PeriodTotals(_) => matches!(at.place, Place::Between) && headed,
        Record::FileTotals(_) => matches!(at.place, Place::Closed) && headed,
    }
}

/// Whether an agent comes after the one before.
fn is_agent_after(before: Option<AgentDigits>, agent: AgentDigits) -> bool
    ensures { result ≡ is_agent_after before agent }
{
    match before {
        Some(before) => before < agent,
        None => true,
    }
}

/// Whether a document comes after the one before it in its office.
fn is_key_after(before: Option<DocumentKey>, key: &DocumentKey) -> bool
    ensures { result ≡ is_key_after before key.now }
{
    match before {
        Some(before) => before.is_before(key),
        None => true,
    }
}

/// Whether an office's agent, or a document, comes after the one before it.
pub(crate) fn is_in_order(at: &Standing, found: &Record) -> bool
    ensures { result ≡ is_in_order at.now found.now }
{
    match found {
        Record::OfficeHeader(office) => is_agent_after(at.agent, office.agent),
        Record::Document(document) => {
            let key = DocumentKey {
                code: document.code,
                number: document.number,
            };
            is_key_after(at.office.latest, &key)
        }
        _ => true,
    }
}
