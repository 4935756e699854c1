//! Runs the work that the command line asks for.

use crate::audit::run_audit;
use crate::bodies::run_body;
use crate::explaining::run_explain;
use crate::input::Input;
use crate::judging::run_judge;
use crate::listening::Port;
use crate::plans::{run_plan, run_plan_of};
use crate::progress::{Shown, clear};
use crate::remarks::{say, say_answer, say_unopened};
use crate::serving::{run_office, serve_office};
use crate::whole_files::short_of_memory;
use bsp_check::{DONE, FAILED, Fault, Verdict, WRONG_WORDS, check, exit_status, hotcheck};
use bsp_streams::Noted;
use bsp_words::{Misfit, WordsFault, Work, words};
use clap::error::ErrorKind;
use std::convert::AsStr;
use std::{env, io};

/// Opens the FILE of a command. Where that fails it says so, unless it is to be quiet.
fn opened(rt: &HostRuntime, file: &str, quiet: bool) -> Option<Input> {
    match Input::open(rt, file) {
        Ok(input) => Some(input),
        Err(error) => {
            if !quiet {
                say_unopened(rt, file, &error);
            }
            None
        }
    }
}

/// The exit status of an answer on a FILE. It says what is wrong, unless it is to be quiet.
fn ended(rt: &HostRuntime, file: &str, quiet: bool, answer: &Result<Verdict, Fault>) -> u8 {
    if !quiet {
        say_answer(rt, file, answer);
    }
    exit_status(answer)
}

/// Reports on a RET file, and answers the exit status.
fn run_check(rt: &HostRuntime, file: &str, quiet: bool) -> u8 {
    let Some(input) = opened(rt, file, quiet) else {
        return FAILED;
    };
    let mut input = Noted::new(Shown::new(rt, input, quiet));
    let mut output = Noted::new(io::writer(rt));
    let answer = check(rt.alloc(), &mut input, &mut output);
    clear(input);
    ended(rt, file, quiet, &answer)
}

/// Reports on a HOT file, with its list where that is asked for, and answers the exit status.
fn run_hotcheck(rt: &HostRuntime, file: &str, quiet: bool, list: bool) -> u8 {
    let Some(input) = opened(rt, file, quiet) else {
        return FAILED;
    };
    let mut input = Noted::new(Shown::new(rt, input, quiet));
    let mut output = Noted::new(io::writer(rt));
    let answer = hotcheck(rt.alloc(), &mut input, &mut output, list);
    clear(input);
    ended(rt, file, quiet, &answer)
}

/// Runs the work, and answers its exit status.
fn run_work(rt: &HostRuntime, work: &Work<'_>) -> u8 {
    match work {
        Work::Check { file, quiet } => run_check(rt, file, *quiet),
        Work::Hotcheck { file, quiet, list } => run_hotcheck(rt, file, *quiet, *list),
        Work::Judge { setting, file } => run_judge(rt, setting, file),
        Work::Plan {
            file,
            published,
            day,
        } => run_plan(rt, file, published, *day),
        Work::PlanOf { book } => run_plan_of(rt, book),
        Work::Body { request, file } => run_body(rt, request, file),
        Work::Explain { code } => run_explain(rt, *code),
        Work::Audit { file } => run_audit(rt, file),
        Work::Run { token, book } => run_office(rt, token, book),
        Work::Serve {
            port,
            token,
            book,
            limits,
            log,
        } => {
            let port = Port {
                port: *port,
                limits: *limits,
                log: *log,
            };
            serve_office(rt, port, token, book)
        }
    }
}

/// What is wrong with a value that `clap` takes.
fn misfit_text(misfit: Misfit) -> &'static str {
    match misfit {
        Misfit::NoToken =>
            "--token T or --token-file FILE gives the office's token: neither is there",
        Misfit::TwoTokens =>
            "--token T or --token-file FILE gives the office's token: both are there",
        Misfit::Token => "the token has 16 to 64 letters and digits",
        Misfit::Minus => "the file of a book or of a token is not called -",
        Misfit::Day => "DAY is a day of the calendar, as 2024-01-05",
        Misfit::Agent => "A is eight digits, of which the last is the first seven modulo 7",
        Misfit::Stock => "FIRST-LAST is two numbers of ten digits, as 1300000000-1300000099",
        Misfit::Period => "PERIOD is five digits, as 24011",
        Misfit::NoPlan =>
            "plan FILE tries a text, and plan --of BOOK prints the plan of a book: neither is there",
        Misfit::TwoPlans => "plan --of BOOK is alone: it takes no FILE, no --after and no --day",
    }
}

/// Prints what `clap` says of the words: help and the version on standard output, else on standard error.
/// Wrong words are so too where their text cannot be printed.
fn refuse(rt: &HostRuntime, fault: &WordsFault) -> u8 {
    let error = match fault {
        WordsFault::Refused(error) => error,
        WordsFault::OutOfForm(misfit) => {
            let text = misfit_text(*misfit);
            let _ = eprintln!(rt; "error: {text}");
            return WRONG_WORDS;
        }
        WordsFault::NoRoom => return short_of_memory(rt),
    };
    if error.kind() == ErrorKind::OutOfMemory {
        let _ = rt.eprintln("bsp_office: out of memory");
        return FAILED;
    }
    let printed = error.print(rt);
    if error.use_stderr() {
        return WRONG_WORDS;
    }
    match printed {
        Ok(()) => DONE,
        Err(error) => {
            say(rt, "standard output", &error);
            FAILED
        }
    }
}

/// Runs the work that these words ask for, the first being the program's name.
fn run_line<S: AsStr>(rt: &HostRuntime, line: &[S]) -> u8 {
    match words(rt.alloc(), line) {
        Ok(work) => run_work(rt, &work),
        Err(fault) => refuse(rt, &fault),
    }
}

fn line_given(rt: &HostRuntime) -> io::Result<Vec<String>> {
    Ok(env::args(rt)?.collect(rt.alloc())?)
}

/// Runs the work that the command line asks for, and answers the exit status. A word that is no
/// text is a wrong word.
pub fn run(rt: &HostRuntime) -> u8 {
    match line_given(rt) {
        Ok(line) => run_line(rt, &line),
        Err(error) if error.kind() == io::ErrorKind::InvalidData => WRONG_WORDS,
        Err(error) => {
            let _ = eprintln!(rt; "bsp_office: {error}");
            FAILED
        }
    }
}
