//! The program of the office: it reads its command line and runs the work that the words ask for.
//! `check` and `hotcheck` report on a RET file and on a HOT file. Of a fault both say on standard error which field,
//! count or sum it is. `judge` prints the verdicts that an office would give, `plan` tries a plan text, and `explain`
//! explains a code. `audit` reports on the book in a file. `run` and `serve` are the office over HTTP, on standard
//! input and output or on a port.
#![tactic(auto)]

mod audit;
mod bodies;
mod book_file;
mod explaining;
mod input;
mod judging;
mod kept;
mod lines;
mod listening;
mod log;
mod plans;
mod progress;
mod remarks;
mod run;
mod serving;
mod standard;
mod token_file;
mod whole_files;

pub use kept::Failing;
pub use listening::{ListenFault, Port, serve_on};
pub use log::Log;
use std::process::ExitCode;

fn main(rt: HostRuntime) -> ExitCode {
    let _standard = standard::hold(&rt);
    ExitCode::from(run::run(&rt))
}
