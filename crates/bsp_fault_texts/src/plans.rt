//! The codes of the plan, the business day and closes.

use crate::entry::Row;

/// The codes `P01` and `P02`.
pub(crate) const P01_TO_P02: [Row; 2] = [
    (
        "P01",
        "400",
        "The bytes are no TOML text. A bracket or a quote is missing, a number has a comma, a key comes twice, a number does not fit 64 bits, or the bytes are no UTF-8",
        "Check the text with any TOML reader. A list of tables has `[[rate]]`, `[[period]]` or `[[commission_tax]]` above each table. Send with `--data-binary`: `curl -d` joins all lines",
        &[],
    ),
    (
        "P02",
        "400",
        "A key is missing, is unknown, or has a wrong value. Or a rate names an airline that is in neither the plan nor the text",
        "`bsp_office plan FILE` names the key and the cause, and with `--after PUBLISHED` takes what is published before it. See its causes",
        &[
            "`currency` is always there: three capital letters in quotes, as `\"EUR\"`",
            "`review_days` is always there: a whole number from 1 to 60, without a point and without quotes",
            "`documents_limit` is always there: a whole number from 1 to 1,000,000, without quotes",
            "`airline` is a list of texts of three digits: `[\"125\", \"220\"]`, not `[125]`",
            "`rate` has tables of `airline`, `from` and `hundredths`, each below `[[rate]]`. The airline is in this text or in the plan",
            "`period` has tables of `code`, `first`, `last` and `remit`, each below `[[period]]`. The code is five digits in quotes",
            "`commission_tax` has tables of `from` and `hundredths`, each below `[[commission_tax]]`",
            "Days are in quotes, `\"2024-01-05\"`: days of the calendar from 2000 to 2099",
            "`hundredths` is a whole number from 0 to 10,000, without quotes: 500 is 5.00 percent",
            "No other key is allowed, nor one of these in other letters",
        ],
    ),
];

/// The codes `P03` to `P05`.
pub(crate) const P03_TO_P05: [Row; 3] = [
    (
        "P03",
        "409",
        "The periods do not follow one another. A first day is not the day after the period before it, or is after the last day. Or the last day is not before the remittance day",
        "Correct the days: `bsp_office plan --after PUBLISHED FILE` names them. The first period may begin on any day, each later one on the day after the one before",
        &[],
    ),
    (
        "P04",
        "409",
        "The business day would go back",
        "The day goes only forwards. What was set cannot be taken back",
        &[],
    ),
    (
        "P05",
        "409",
        "A new rate or tax begins on the business day or before. Before a day is set, it is 2000-01-01",
        "Let it begin on a day after the business day: `bsp_office plan --day DAY FILE` names each that does not",
        &[],
    ),
];

/// The codes `P06` to `P09`.
pub(crate) const P06_TO_P09: [Row; 4] = [
    (
        "P06",
        "409",
        "The period to be closed is unknown, or an earlier one is open",
        "Close the earliest open period first",
        &[],
    ),
    (
        "P07",
        "409",
        "The period to be closed is not over",
        "Set the business day to a day after its last day, when that day has come",
        &[],
    ),
    (
        "P08",
        "409",
        "The text differs from what is published: in the currency, the review days, the limit, or an entry with the same key. Or two entries of the text have one key and differ",
        "Write what is published as it is, and add new entries: `bsp_office plan --after PUBLISHED FILE` names what differs, and `bsp_office plan --of BOOK` prints what is published. A changed rate or tax is a new one from a later day",
        &[],
    ),
    (
        "P09",
        "",
        "Memory was short for a plan. No caller sees it: over HTTP it is B01",
        "As for B01",
        &[],
    ),
];
