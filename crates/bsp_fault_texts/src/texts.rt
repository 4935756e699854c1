//! The texts of `explain`.

ghost use Rattle.std.specs.Prelude.{◌≡◌, ◌++◌, IfOk, OnOk, is_some, map, option_map};
ghost use Rattle.std.specs.List.{flat_map};
ghost use Rattle.bsp_fault_texts.specs.Codes.{all_codes, is_code};
ghost use Rattle.bsp_fault_texts.specs.Table.{entry_named, said_by, said_in, table};
ghost use Rattle.bsp_fault_texts.specs.Texts.{cause_text, said_line, said_text, status_text};

use crate::entry::{Entry, Row};
use crate::table::{entry_of, parts};
use std::alloc::{AllocError, Global};

/// Appends some texts, one after another.
fn push_all(text: &mut Vec<u8>, parts: &[&str]) -> Result<(), AllocError>
    ensures { OnOk result (text.new.items ≡ text.old.items ++ flat_map (λ part. part.now) parts.now) }
{
    for part in parts {
        text.extend_from_slice(part.as_bytes())?;
    }
    Ok(())
}

/// Appends the line behind a code: its status, where a reply has one.
fn push_status(text: &mut Vec<u8>, status: &str) -> Result<(), AllocError>
    ensures { OnOk result (text.new.items ≡ text.old.items ++ status_text status.now) }
{
    if status.is_empty() {
        push_all(text, &["\n"])
    } else {
        push_all(text, &[" (status ", status, ")\n"])
    }
}

/// Appends the causes of a code, a line for each.
fn push_causes(text: &mut Vec<u8>, causes: &[&str]) -> Result<(), AllocError>
    ensures { OnOk result (text.new.items ≡ text.old.items ++ flat_map (λ cause. cause_text cause.now) causes.now) }
{
    for cause in causes {
        push_all(text, &["- ", cause, ".\n"])?;
    }
    Ok(())
}

#[tactic(auto, unfolding(crate::specs::Texts::said_text))]
/// Appends what is said of a code.
fn push_entry(text: &mut Vec<u8>, entry: &Entry) -> Result<(), AllocError>
    ensures { OnOk result (text.new.items ≡ text.old.items ++ said_text (said_by entry.now)) }
{
    push_status(text, entry.status)?;
    push_all(
        text,
        &[entry.meaning, ".\nWhat to do: ", entry.remedy, ".\n"],
    )?;
    push_causes(text, entry.causes)
}

/// What a code means, when it comes and what to do: some lines, of which the first begins with the code. None of a text
/// that is no code.
///
/// # Errors
///
/// An allocation was refused.
pub fn explanation(alloc: Global, code: &str) -> Result<Option<Vec<u8>>, AllocError>
    ensures text { IfOk result (λ found. option_map (λ text. text.items) found ≡ option_map (λ s. code.now ++ said_text s) (entry_named code.now)) }
    ensures known { IfOk result (λ found. is_some found ≡ is_code code.now) }
{
    let Some(entry) = entry_of(code) else {
        return Ok(None);
    };
    let mut text = Vec::from_slice(alloc, code.as_bytes())?;
    push_entry(&mut text, &entry)?;
    Ok(Some(text))
}

/// Appends a line for each of some rows.
fn push_rows(text: &mut Vec<u8>, rows: &[Row]) -> Result<(), AllocError>
    ensures { OnOk result (text.new.items ≡ text.old.items ++ flat_map (λ row. said_line (said_in row)) rows.now) }
{
    for &(code, _, meaning, _, _) in rows {
        push_all(text, &[code, " ", meaning, "\n"])?;
    }
    Ok(())
}

/// The list of all codes: a line for each, which begins with it, in the order of `docs/CODES.md`.
///
/// # Errors
///
/// An allocation was refused.
pub fn listing(alloc: Global) -> Result<Vec<u8>, AllocError>
    ensures lines { IfOk result (λ text. text.items ≡ flat_map said_line table) }
    ensures codes { map (λ s. s.code) table ≡ all_codes }
{
    let parts: &[&[Row]] = &parts();
    let mut text = Vec::new(alloc);
    for rows in parts {
        push_rows(&mut text, rows)?;
    }
    Ok(text)
}
