//! The lines of the list of a HOT file.

ghost use Rattle.std.specs.Prelude.{◌≡◌, ◌++◌, OnOk, codes, length};
ghost use Rattle.std.specs.List.{flat_map};
ghost use Rattle.bsp_fields.specs.Decimal.{fixed_digits};
ghost use Rattle.bsp_fields.specs.Money.{money_text};
ghost use Rattle.bsp_check.specs.HotLines.{amounts_text, document_key, heading_text, issued_text, listed_totals_text};

use bsp_fields::{NoRoom, write_digits, write_money};
use bsp_hot_records::{AgentDigits, Document, Heading, Totals};
use std::alloc::Global;

/// Appends some texts, one after another.
fn push_all(out: &mut Vec<u8>, texts: &[&[u8]]) -> Result<(), NoRoom>
    ensures { OnOk result (out.new.items ≡ out.old.items ++ flat_map (λ text. text.now) texts.now) }
{
    for text in texts {
        out.extend_from_slice(text)?;
    }
    Ok(())
}

/// Appends a name and an amount.
fn push_named(alloc: Global, out: &mut Vec<u8>, name: &[u8], amount: i128) -> Result<(), NoRoom>
    ensures { OnOk result (out.new.items ≡ out.old.items ++ (name.now ++ money_text amount)) }
{
    let amount = write_money(alloc, amount)?;
    push_all(out, &[name, amount.as_bytes()])
}

/// Appends cash, credit, commission, tax on commission and net, and the end of the line.
pub(crate) fn push_amounts(alloc: Global, out: &mut Vec<u8>, totals: Totals) -> Result<(), NoRoom>
    ensures { OnOk result (out.new.items ≡ out.old.items ++ amounts_text totals) }
{
    let Totals { sums, net } = totals;
    push_named(alloc, out, b" CA ", sums.cash)?;
    push_named(alloc, out, b" CC ", sums.credit)?;
    push_named(alloc, out, b" commission ", sums.commission)?;
    push_named(alloc, out, b" tax ", sums.tax)?;
    push_named(alloc, out, b" net ", net)?;
    push_all(out, &[b"\n"])
}

/// Appends a name, the number of documents, and their amounts.
fn push_totals(alloc: Global, out: &mut Vec<u8>, name: &[u8], totals: Totals) -> Result<(), NoRoom>
    ensures { OnOk result (out.new.items ≡ out.old.items ++ (name.now ++ listed_totals_text totals)) }
{
    let documents = format!(in alloc; " documents {}", totals.sums.documents)?;
    push_all(out, &[name, documents.as_bytes()])?;
    push_amounts(alloc, out, totals)
}

/// Appends the agent, the code and the number of a document.
fn push_key(out: &mut Vec<u8>, document: &Document) -> Result<(), NoRoom>
    ensures { OnOk result (out.new.items ≡ out.old.items ++ document_key document.now) }
{
    let agent = write_digits::<8>(document.agent.number() as u64);
    let code = document.code.text();
    let number = document.number.digits();
    push_all(out, &[&agent, b" ", &code, b" ", &number])
}

/// Appends the day of issue of BKS24.
#[tactic(auto, unfolding(crate::specs::HotLines::issued_text))]
fn push_issued(out: &mut Vec<u8>, line: &[u8]) -> Result<(), NoRoom>
    requires { length line.now ≡ 136 }
    ensures { OnOk result (out.new.items ≡ out.old.items ++ issued_text line.now) }
{
    let day = &[
        b" 20",
        &line[21..23],
        b"-",
        &line[23..25],
        b"-",
        &line[25..27],
    ];
    push_all(out, day)
}

/// Appends what BKS24 gives the line of a document: the agent, the code, the number and the day of issue.
pub(crate) fn push_begun(out: &mut Vec<u8>, document: &Document, line: &[u8]) -> Result<(), NoRoom>
    requires { length line.now ≡ 136 }
    ensures { OnOk result (out.new.items ≡ out.old.items ++ (document_key document.now ++ issued_text line.now)) }
{
    push_key(out, document)?;
    push_issued(out, line)
}

/// Appends the line of the airline and the period.
pub(crate) fn push_heading(out: &mut Vec<u8>, heading: &Heading) -> Result<(), NoRoom>
    ensures { OnOk result (out.new.items ≡ out.old.items ++ heading_text heading.now) }
{
    let airline = heading.airline.digits();
    let period = heading.period.digits();
    push_all(out, &[b"airline ", &airline, b" period ", &period, b"\n"])
}

/// Appends the line of an agent.
pub(crate) fn push_agent(
    alloc: Global,
    out: &mut Vec<u8>,
    agent: AgentDigits,
    totals: Totals,
) -> Result<(), NoRoom>
    ensures { OnOk result (out.new.items ≡ out.old.items ++ (fixed_digits 8 agent ++ listed_totals_text totals)) }
{
    let agent = write_digits::<8>(agent.number() as u64);
    push_totals(alloc, out, &agent, totals)
}

/// Appends the line of the file.
pub(crate) fn push_file(alloc: Global, out: &mut Vec<u8>, totals: Totals) -> Result<(), NoRoom>
    ensures { OnOk result (out.new.items ≡ out.old.items ++ (codes "total" ++ listed_totals_text totals)) }
{
    push_totals(alloc, out, b"total", totals)
}
