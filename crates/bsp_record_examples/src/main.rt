//! Worked examples of single calls: of fields, of RET files in pieces and written, and of a run of requests with reports
//! over its rows. It reads a page of cases from standard input, makes the call that each case names, and writes the page
//! with what the calls gave. The page says how a case is written. The status is 1 where a line is no case.
#![tactic(auto)]

mod answers;
mod fault;
mod fields;
mod files;
mod office;
mod output;
mod page;
mod reader;
mod ret;
mod texts;
mod words;

use answers::answer_page;
use fault::Answered;
use output::Output;
use page::Page;
use std::io;
use std::process::ExitCode;

/// Reads the page and writes it with its answers, up to the first line that is no case.
fn run(rt: &HostRuntime) -> Answered {
    let text = io::read_to_string(rt.alloc(), rt.stdin())?;
    let page = Page {
        alloc: rt.alloc(),
        text: text.as_str(),
    };
    let mut out = Output::new(rt.alloc())?;
    let answered = answer_page(&page, &mut out);
    rt.print(out.text.as_str())?;
    answered
}

fn main(rt: HostRuntime) -> ExitCode {
    match run(&rt) {
        Ok(()) => ExitCode::SUCCESS,
        Err(fault) => {
            let _ = eprintln!(rt; "the last line: {}", fault.text());
            ExitCode::FAILURE
        }
    }
}
