//! HOT files, by which the office reports an airline's documents of one period to it. They are
//! judged exactly by their definition, to their totals or to the first record at fault.
#![tactic(auto)]

mod check;
mod judge;
mod model;
mod pieces;
mod places;
mod standing;
mod sums;

pub use bsp_hot_records::{DocumentCode, FileForm, RecordName, Sums};
pub use check::{check_hot, hot_or_fault};
pub use model::{
    CodeSums, DocumentKey, HotTotals, OfficeSums, Place, Progress, RecordFault, Stage, Standing,
};
pub use sums::part_sums;
