//! The codes of what is asked for.

use crate::entry::Row;

/// The codes `D`.
pub(crate) const DOCUMENTS: [Row; 1] = [(
    "D01",
    "404",
    "You have no accepted transaction of this number",
    "Give ten digits, without the check digit. A refused transaction leaves nothing",
    &[],
)];

/// The codes `S`.
pub(crate) const PERIODS: [Row; 2] = [
    (
        "S01",
        "409",
        "The period is not in the plan. Of a statement or a settlement: it is not closed",
        "Correct the five digits, or ask again after the close",
        &[],
    ),
    (
        "S02",
        "",
        "Memory was short for a report. No caller sees it: over HTTP it is B01",
        "As for B01",
        &[],
    ),
];

/// The codes `H`.
pub(crate) const HOT_FILES: [Row; 4] = [
    (
        "H01",
        "409",
        "A count or a total does not fit its place in the HOT file",
        "Ask the office for the settlement, which has such sums whole",
        &[],
    ),
    (
        "H02",
        "409",
        "The period of the HOT file is not in the plan, or is not closed",
        "Correct the five digits, or ask again after the close",
        &[],
    ),
    (
        "H03",
        "",
        "Memory was short for a HOT file. No caller sees it: over HTTP it is B01",
        "As for B01",
        &[],
    ),
    (
        "H04",
        "",
        "`hotcheck` alone: the record that is named does not continue a HOT file, or the file ends there",
        "Read the line on standard error. Fetch the file again, and keep its bytes: `curl .. >FILE`",
        &[],
    ),
];
