//! The calls of amounts, money, document numbers, agents and days, and how a fault of a HOT file is displayed.

use crate::fault::{Answered, Fault};
use crate::files;
use crate::output::{Output, say};
use crate::page::Page;
use crate::words::{first_word, number};
use bsp_fields::{AgentCode, Day, DocNumber, read_amount, write_amount, write_money};
use bsp_hot_check::RecordFault;
use std::alloc::Global;
use std::str;

/// Appends the amount that a text is, and how it is written.
fn show_amount(text: &[u8], out: &mut Output) -> Answered {
    match read_amount(text) {
        Ok(amount) => {
            let written = write_amount(amount);
            let written = str::from_utf8(&written).unwrap_or("no text");
            say!(out, "{}, written {written}", amount.get());
        }
        Err(fault) => out.fault(fault),
    }
    Ok(())
}

/// Appends minor units as money.
fn show_money(alloc: Global, units: &str, out: &mut Output) -> Answered {
    let units = number(units)?;
    match write_money(alloc, units) {
        Ok(money) => out.push(money.as_str()),
        Err(no_room) => out.say(no_room),
    }
    Ok(())
}

/// Appends a document number that is read beside its check digit.
fn show_document(text: &str, out: &mut Output) -> Answered {
    let (digits, check) = first_word(text);
    let check = number(check)?;
    out.found(DocNumber::read(digits.as_bytes(), check))
}

/// Appends the number of the day so many days after one.
fn show_plus(text: &str, out: &mut Output) -> Answered {
    let (day, days) = first_word(text);
    let days = number(days)?;
    let Ok(day) = Day::read_text(day.as_bytes()) else {
        return Err(Fault::Case);
    };
    out.say(day.plus(days));
    Ok(())
}

/// Appends how the fault of a HOT file at the record of a number is displayed.
fn show_hot_fault(text: &str, out: &mut Output) -> Answered {
    let number = number(text)?;
    out.say(RecordFault { number });
    Ok(())
}

/// Appends the answer to a case.
pub fn answer(page: &Page<'_>, case: &str, out: &mut Output) -> Answered {
    let (word, rest) = first_word(case);
    let text = rest.as_bytes();
    match word {
        "amount" => show_amount(text, out),
        "money" => show_money(page.alloc, rest, out),
        "document" => show_document(rest, out),
        "agent" => out.found(AgentCode::read(text)),
        "day" => out.found(Day::read_record(text)),
        "plus" => show_plus(rest, out),
        "hot-fault" => show_hot_fault(rest, out),
        _ => files::answer(page, word, rest, out),
    }
}
