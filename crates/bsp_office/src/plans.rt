//! The command `plan`: what a plan text publishes, or why it is refused; and the published plan of a book as a text.

use crate::audit::{report_empty, report_unsound};
use crate::remarks::{say_known, say_reason};
use crate::whole_files::{all_bytes, bytes_of, printed, short_of_memory};
use bsp_calendar::Plan;
use bsp_check::{DONE, REFUSED};
use bsp_explain::Words;
use bsp_fields::Day;
use bsp_plan_trial::{PlanRefused, plan_text, refusal_reason, try_plan};
use bsp_store::plan_at;
use sqlite::Wary;

/// Plan texts that are tried: those published before, and the last.
#[derive(Clone, Copy)]
pub(crate) struct Trial<'t> {
    /// The files of the texts published before.
    pub(crate) published: &'t [&'t str],
    /// The texts published before.
    pub(crate) texts: &'t [Vec<u8>],
    /// The business day on which the last text is published, and the opening day if there is none.
    pub(crate) day: Option<Day>,
    /// The file of the text that is tried.
    pub(crate) file: &'t str,
    /// The text that is tried.
    pub(crate) text: &'t [u8],
}

/// The file of the text that is refused.
fn file_of<'t>(trial: &Trial<'t>, place: usize) -> &'t str {
    match trial.published.get(place) {
        Some(earlier) => earlier,
        None => trial.file,
    }
}

/// Reports which of the texts is refused, and answers the exit status.
fn report_refused(rt: &HostRuntime, trial: &Trial<'_>, refused: PlanRefused) -> u8 {
    let Some(code) = refused.code() else {
        return short_of_memory(rt);
    };
    let mut line = Words::new();
    line.add(code);
    line.add("\n");
    match refusal_reason(rt.alloc(), trial.texts, trial.day, trial.text, refused) {
        Ok(reason) => say_known(rt, file_of(trial, refused.place), &reason),
        Err(_) => return short_of_memory(rt),
    }
    printed(rt, line.text().as_bytes(), REFUSED)
}

/// Tries a text over those published before, and answers the exit status.
pub(crate) fn report_trial(rt: &HostRuntime, trial: &Trial<'_>) -> u8 {
    match try_plan(rt.alloc(), trial.texts, trial.day, trial.text) {
        Ok(lines) => printed(rt, &lines, DONE),
        Err(refused) => report_refused(rt, trial, refused),
    }
}

/// Tries the text of a file over those published before, and answers the exit status.
pub(crate) fn run_plan(rt: &HostRuntime, file: &str, published: &[&str], day: Option<Day>) -> u8 {
    let texts = match all_bytes(rt, published) {
        Ok(texts) => texts,
        Err(status) => return status,
    };
    let text = match bytes_of(rt, file) {
        Ok(text) => text,
        Err(status) => return status,
    };
    report_trial(
        rt,
        &Trial {
            published,
            texts: &texts,
            day,
            file,
            text: &text,
        },
    )
}

/// Prints the plan of a book as a text that publishes it, and answers the exit status.
fn print_plan(rt: &HostRuntime, book: &str, plan: &Plan) -> u8 {
    match plan_text(rt.alloc(), plan) {
        Ok(Some(text)) => printed(rt, &text, DONE),
        Ok(None) => {
            say_reason(rt, book, "no plan is published");
            printed(rt, b"", DONE)
        }
        Err(_) => short_of_memory(rt),
    }
}

/// Prints the published plan of the book in a file, and answers the exit status.
pub(crate) fn run_plan_of(rt: &HostRuntime, book: &str) -> u8 {
    if let Some(status) = report_empty(rt, book) {
        return status;
    }
    match plan_at(rt, book, Wary) {
        Ok(plan) => print_plan(rt, book, &plan),
        Err(fault) => report_unsound(rt, book, &fault),
    }
}
