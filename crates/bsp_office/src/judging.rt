//! The command `judge`: the verdicts that an office gives on a RET file.

use crate::log::code_in;
use crate::plans::{Trial, report_trial};
use crate::remarks::{say_answer, say_lines, say_lines_of, say_reason};
use crate::whole_files::{all_bytes, bytes_of, printed, short_of_memory};
use bsp_check::{DONE, FAILED, REFUSED, check, exit_status};
use bsp_explain::Words;
use bsp_fields::PeriodCode;
use bsp_judge::{Earlier, JudgeFault, Judged, Range, RefusedStep, Setup, Step, judge};
use bsp_streams::Noted;
use bsp_words::{Earlier as Named, Setting};
use std::io;

/// Reports on a RET file with a fault as `check` does, and answers the exit status.
fn report_fault(rt: &HostRuntime, file: &str, text: &[u8]) -> u8 {
    let (mut input, mut output) = (
        Noted::new(io::Cursor::new(text)),
        Noted::new(io::writer(rt)),
    );
    let answer = check(rt.alloc(), &mut input, &mut output);
    say_answer(rt, file, &answer);
    exit_status(&answer)
}

/// The file at a place of what came before.
fn file_at<'a>(setting: &Setting<'a>, place: usize) -> Option<&'a str> {
    let mut count = 0_usize;
    for (at, named) in setting.earlier.iter().enumerate() {
        if let Named::File = named {
            if at == place {
                return setting.files.get(count).copied();
            }
            count = count.saturating_add(1);
        }
    }
    None
}

/// Reports on an earlier file with a fault, and answers the exit status.
fn report_earlier(rt: &HostRuntime, setting: &Setting<'_>, setup: &Setup<'_>, place: usize) -> u8 {
    match (file_at(setting, place), setup.earlier.get(place)) {
        (Some(file), Some(Earlier::File(text))) => report_fault(rt, file, text),
        _ => short_of_memory(rt),
    }
}

/// Adds a range of the agent, if it is there.
fn add_range(words: &mut Words, setting: &Setting<'_>, place: usize) {
    if let Some(range) = setting.stock.get(place) {
        words.add(" ");
        words.show(range.first);
        words.add("-");
        words.show(range.last);
    }
}

/// Adds a period, if there is one.
fn add_period(words: &mut Words, period: Option<PeriodCode>) {
    if let Some(period) = period {
        words.add(" ");
        words.show(period);
    }
}

/// The period that is closed at a place of what came before.
fn closed_at(setting: &Setting<'_>, place: usize) -> Option<PeriodCode> {
    match setting.earlier.get(place) {
        Some(Named::Closed(period)) => Some(*period),
        _ => None,
    }
}

/// The option whose value the office refuses, with the value where the option may be repeated.
fn option_of(setting: &Setting<'_>, step: Step) -> Words {
    let mut words = Words::new();
    match step {
        Step::Plan(_) => words.add("--plan"),
        Step::Day => words.add("--day"),
        Step::Agent => words.add("--agent"),
        Step::Stock(place) => {
            words.add("--stock");
            add_range(&mut words, setting, place);
        }
        Step::Closed(place) => {
            words.add("--closed");
            add_period(&mut words, closed_at(setting, place));
        }
        Step::Closing(_) => {
            words.add("--statement");
            add_period(&mut words, setting.statement);
        }
    }
    words
}

/// Says why the office refuses a request.
fn say_refused(rt: &HostRuntime, setting: &Setting<'_>, refused: &RefusedStep) {
    let option = option_of(setting, refused.step);
    match str::from_utf8(&refused.reason) {
        Ok(reason) if !reason.is_empty() => say_reason(rt, option.text(), reason),
        _ => say_reason(rt, option.text(), "the office refuses it"),
    }
}

/// Reports which request of the office is refused, and answers the exit status.
fn report_refused(
    rt: &HostRuntime,
    setting: &Setting<'_>,
    setup: &Setup<'_>,
    refused: &RefusedStep,
) -> u8 {
    if let Step::Plan(place) = refused.step {
        if let (Some(file), Some(text)) = (setting.plans.get(place), setup.plans.get(place)) {
            let trial = Trial {
                published: &setting.plans[..place],
                texts: &setup.plans[..place],
                day: None,
                file,
                text,
            };
            return report_trial(rt, &trial);
        }
    }
    let mut line = Words::new();
    line.add(code_in(refused.refusal.body()));
    line.add("\n");
    say_refused(rt, setting, refused);
    printed(rt, line.text().as_bytes(), REFUSED)
}

/// Says what is known of the transactions of the earlier files.
fn say_earlier(rt: &HostRuntime, setting: &Setting<'_>, judged: &Judged) {
    for said in &judged.earlier {
        if let Some(file) = file_at(setting, said.place) {
            say_lines_of(rt, file, &said.lines);
        }
    }
}

/// Prints the verdicts, and the statement where it is asked for. It answers the exit status.
fn report(rt: &HostRuntime, setting: &Setting<'_>, judged: &Judged) -> u8 {
    say_earlier(rt, setting, judged);
    say_lines(rt, &judged.remarks);
    let status = if judged.is_taken { DONE } else { REFUSED };
    let status = printed(rt, &judged.lines, status);
    match &judged.statement {
        Some(statement) if status != FAILED => printed(rt, statement.as_bytes(), status),
        _ => status,
    }
}

/// Reports that the plan has no period of the statement's code, and answers the exit status.
fn report_unknown_period(rt: &HostRuntime, setting: &Setting<'_>) -> u8 {
    let option = option_of(setting, Step::Closing(0));
    say_reason(rt, option.text(), "no period of the plan has this code");
    printed(rt, b"S01\n", REFUSED)
}

/// Judges a file, whose texts were read, and answers the exit status.
fn judge_texts(
    rt: &HostRuntime,
    setting: &Setting<'_>,
    file: &str,
    setup: &Setup<'_>,
    text: &[u8],
) -> u8 {
    match judge(rt.alloc(), setup, text) {
        Ok(judged) => report(rt, setting, &judged),
        Err(JudgeFault::Refused(refused)) => report_refused(rt, setting, setup, &refused),
        Err(JudgeFault::File(_)) => report_fault(rt, file, text),
        Err(JudgeFault::Earlier(place, _)) => report_earlier(rt, setting, setup, place),
        Err(JudgeFault::UnknownPeriod) => report_unknown_period(rt, setting),
        Err(JudgeFault::Memory) => short_of_memory(rt),
    }
}

/// The ranges of a setting.
fn ranges_of(rt: &HostRuntime, setting: &Setting<'_>) -> Result<Vec<Range>, u8> {
    let mut ranges = Vec::new(rt.alloc());
    for range in &setting.stock {
        let (first, last) = (range.first, range.last);
        if ranges.push(Range { first, last }).is_err() {
            return Err(short_of_memory(rt));
        }
    }
    Ok(ranges)
}

/// The texts of the earlier files, with the closes among them.
fn earlier_of(rt: &HostRuntime, setting: &Setting<'_>) -> Result<Vec<Earlier>, u8> {
    let mut all = Vec::new(rt.alloc());
    let mut files = setting.files.iter();
    for named in &setting.earlier {
        let earlier = match named {
            Named::File => match files.next() {
                Some(file) => Earlier::File(bytes_of(rt, file)?),
                None => break,
            },
            Named::Closed(period) => Earlier::Closed(*period),
        };
        if all.push(earlier).is_err() {
            return Err(short_of_memory(rt));
        }
    }
    Ok(all)
}

/// Prints the verdicts on the RET file, and answers the exit status.
fn judge_setting(rt: &HostRuntime, setting: &Setting<'_>, file: &str) -> Result<u8, u8> {
    let plans = all_bytes(rt, &setting.plans)?;
    let stock = ranges_of(rt, setting)?;
    let earlier = earlier_of(rt, setting)?;
    let text = bytes_of(rt, file)?;
    let setup = Setup {
        plans: plans.as_slice(),
        day: setting.day,
        agent: setting.agent,
        stock: stock.as_slice(),
        earlier: earlier.as_slice(),
        statement: setting.statement,
    };
    Ok(judge_texts(rt, setting, file, &setup, &text))
}

/// Prints the verdicts on the RET file, and answers the exit status.
pub(crate) fn run_judge(rt: &HostRuntime, setting: &Setting<'_>, file: &str) -> u8 {
    match judge_setting(rt, setting, file) {
        Ok(status) => status,
        Err(status) => status,
    }
}
