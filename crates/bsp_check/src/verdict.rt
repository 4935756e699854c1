//! What a command answers of an input.

ghost use Rattle.std.specs.Prelude.{◌≡◌};
ghost use Rattle.bsp_check.specs.Verdicts.{status_of};

use crate::fault::Fault;
use crate::status::{DONE, FAILED, REFUSED};
use bsp_explain::Explanation as RetExplanation;
use bsp_hot_explain::{Heading, HotExplanation};
use std::fmt;

/// What is wrong with a record of a RET or of a HOT file. It is for people.
#[derive(Clone, Copy)]
pub enum Explanation {
    /// Of a RET file.
    Ret(RetExplanation),
    /// Of a HOT file.
    Hot(HotExplanation),
}

impl fmt::Display for Explanation {
    fn fmt<W: fmt::Write>(&self, f: &mut fmt::Formatter<W>) -> fmt::Result {
        match self {
            Explanation::Ret(explanation) => explanation.fmt(f),
            Explanation::Hot(explanation) => explanation.fmt(f),
        }
    }
}

/// What a report says of an input.
#[derive(Clone, Copy)]
pub enum Verdict {
    /// It is a file without fault. Of a HOT file it has what BFH01 says of it.
    Passed(Option<Heading>),
    /// It has a fault. The explanation is for people: the report has the fault's code alone.
    Refused(Explanation),
}

/// The exit status that goes with an answer: 0 for a file without fault, 1 for a fault, 3 where no whole
/// report was written.
pub fn exit_status(answer: &Result<Verdict, Fault>) -> u8
    ensures { result ≡ status_of answer.now }
{
    match answer {
        Ok(Verdict::Passed(_)) => DONE,
        Ok(Verdict::Refused(_)) => REFUSED,
        Err(_) => FAILED,
    }
}
