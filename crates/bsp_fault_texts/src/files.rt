//! The codes of RET files.

use crate::entry::Row;

/// The codes `F01` to `F03`.
pub(crate) const F01_TO_F03: [Row; 3] = [
    (
        "F01",
        "422",
        "The line does not have 136 characters, or has one that is not from space to `~`: a tab, a letter with an accent, or a mark at the beginning of the file",
        "Fill each line with spaces to 136 characters, and save as plain text. Send with `--data-binary`: `curl -d` joins all lines. `bsp_office check FILE` says how many characters are too few or too many",
        &[],
    ),
    (
        "F02",
        "422",
        "Record 1 is no header: column 1 is not `1`, or columns 28 to 30 are neither `001` nor `002`",
        "Begin with the header. Take 002 where a ticket is paid with two tickets, else 001 or 002",
        &[],
    ),
    (
        "F03",
        "422",
        "This record may not come here. Its first character, its transaction number or its order is wrong",
        "`bsp_office check FILE` says what comes at this place. A sale is records 2, 5 and one to three records 8, a refund is records 2, 3, 5 and 8, an exchange is these with EX, and a CANX is record 2 alone. See its causes",
        &[
            "Transaction numbers do not rise by one from 000001, or a record 3, 5 or 8 has another number than its record 2",
            "A CANX has a further record. It is one record 2 alone",
            "A refund has no record 3 between records 2 and 5, or has two",
            "A record 3 is in a sale with no form EX. Then the fault is at the record after the last record 8: add the EX, or take out the record 3",
            "A form EX comes with no record 3, or in a refund",
            "A sale has no record 5 or no record 8, or more than three records 8",
            "The forms are not in the order CA, CC, EX, or one comes twice: write one record 8 with the sum",
            "A second record 3 is in a file of profile 001: write `002` in columns 28 to 30 of the header",
        ],
    ),
];

/// The codes `F04` and `F05`.
pub(crate) const F04_TO_F05: [Row; 2] = [
    (
        "F04",
        "422",
        "Columns 24 to 27 of the header are not `PROD`",
        "Write `PROD` there",
        &[],
    ),
    (
        "F05",
        "422",
        "A field of the record is not in its form",
        "`bsp_office check FILE` names the columns, what they have, and what is right. See its causes",
        &[
            "A number has a letter, a point or a space. Zeros in front are written",
            "An amount is not ten digits and a last character with digit and sign: 200.00 is `0000002000{`",
            "A day is not in the calendar, as `240230`, or a time is not from `0000` to `2359`",
            "The code in record 2 is none of `TKTT`, `RFND` and `CANX`",
            "The form in record 8 is none of `CA`, `CC` and `EX`",
            "A CC has no card vendor in columns 21 and 22, or a CA or an EX has one",
            "A tax code, a card vendor, a country or a name of a system has a small letter or a space",
            "Tax codes do not rise from place to place, one comes twice, or an unused place is before a used one",
            "The rate in record 5 is above `10000`, which is 100.00 percent",
            "A column that no field uses is not a space, or the second record 3 does not come after the first by airline and document",
        ],
    ),
];

/// The codes `F06` to `F10`.
pub(crate) const F06_TO_F10: [Row; 5] = [
    (
        "F06",
        "422",
        "The trailer's count of records or of transactions is wrong",
        "Count all lines, header and trailer included, and all records 2. `bsp_office check FILE` says both numbers",
        &[],
    ),
    (
        "F07",
        "422",
        "The trailer's sum is not that of all amounts in records 8",
        "Add them up, those of refunds below zero and EX included. `bsp_office check FILE` has the sum as it is written",
        &[],
    ),
    (
        "F08",
        "422",
        "The file ends before a trailer. The record is one more than there are",
        "Write the trailer, and send the whole file. `bsp_office check FILE` has the trailer as it is written. An empty body is F08 at record 1",
        &[],
    ),
    (
        "F09",
        "422",
        "A line follows the trailer, also an empty one",
        "Remove it. One file has one header and one trailer",
        &[],
    ),
    (
        "F10",
        "",
        "Memory was short for the file. No caller sees it: over HTTP it is B01, and `check` says `out of memory`",
        "As for B01",
        &[],
    ),
];
