//! What a RET file is judged over, and why it is not judged.

use crate::remarks::Known;
use bsp_book::ListBook;
use bsp_fields::{AgentCode, Day, PeriodCode};
use bsp_messages::RequestRefusal;
use bsp_ret::RetFault;
use bsp_rules::Range;

/// What came before the file that is judged.
#[derive(Drop)]
pub enum Earlier {
    /// The agent reported this RET file.
    File(Vec<u8>),
    /// The office closed this period.
    Closed(PeriodCode),
}

/// What a RET file is judged over.
#[derive(Clone, Copy)]
pub struct Setup<'s> {
    /// The plan texts that are published, the first first.
    pub plans: &'s [Vec<u8>],
    /// The business day.
    pub day: Day,
    /// The agent that reports.
    pub agent: AgentCode,
    /// Its ranges, in the order of their allotment.
    pub stock: &'s [Range],
    /// What came before the file, the earliest first.
    pub earlier: &'s [Earlier],
    /// The period of the statement that is asked for, if one is.
    pub statement: Option<PeriodCode>,
}

impl Setup<'_> {
    /// What the words on a file are made of, with the book after it.
    pub(crate) fn known<'k>(&'k self, book: &'k ListBook) -> Known<'k> {
        Known {
            agent: self.agent,
            stock: self.stock,
            day: self.day,
            book,
        }
    }
}

/// A request of the office in a trial.
#[derive(Clone, Copy, PartialEq, Eq, Drop)]
pub enum Step {
    /// Publish the plan text at this place, from 0.
    Plan(usize),
    /// Set the business day.
    Day,
    /// Register the agent.
    Agent,
    /// Allot the range at this place.
    Stock(usize),
    /// Close the period at this place of what came before.
    Closed(usize),
    /// The request at this place of those for the statement: the business day, then the closes, then the statement.
    Closing(usize),
}

/// A request that the office refuses.
#[derive(Drop)]
pub struct RefusedStep {
    /// The request.
    pub step: Step,
    /// The refusal.
    pub refusal: RequestRefusal,
    /// What is known of it, without a newline; it may be empty. The words are for people.
    pub reason: Vec<u8>,
}

/// Why a file is not judged.
#[derive(Drop)]
pub enum JudgeFault {
    /// The office refuses a request. What is asked before it passes.
    Refused(RefusedStep),
    /// The file at this place of what came before, from 0, has a fault, which is not F10. What is asked before it passes.
    Earlier(usize, RetFault),
    /// The file has a fault, which is not F10.
    File(RetFault),
    /// The plan has not the period of the statement: S01. All that comes before passes, and the file has its verdicts.
    UnknownPeriod,
    /// An allocation was refused.
    Memory,
}
