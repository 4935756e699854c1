//! The codes of verdicts on transactions.

use crate::entry::Row;

/// The codes `E01` to `E06`.
pub(crate) const E01_TO_E06: [Row; 6] = [
    (
        "E01",
        "",
        "The airline is not in the plan",
        "Correct the airline. Else ask the office to publish it",
        &[],
    ),
    (
        "E02",
        "",
        "The agent in record 2 is not registered, or is not the one that reports",
        "Report your own transactions with your own token. Else ask the office to register the agent. Correct the agent's code, its check digit included",
        &[],
    ),
    (
        "E03",
        "",
        "The check digit of the document (record 2, column 33) or of a related one (record 3, column 21) is wrong",
        "It is the number modulo 7: 1300000001 has 6",
        &[],
    ),
    (
        "E04",
        "",
        "The date of issue is after the business day of the office",
        "Report it again when that day has come, or correct the date",
        &[],
    ),
    (
        "E05",
        "",
        "The number is in none of your ranges. A refund needs a number of your own, too",
        "Read `/agents/{agent}/stock`, and take a number from it. Else ask the office for stock",
        &[],
    ),
    (
        "E06",
        "",
        "The number was accepted before, with other content. Of a CANX: the number was cancelled before",
        "Take another number. To correct a sale report a CANX of its number, and then the sale with a new number",
        &[],
    ),
];

/// The codes `E07` to `E09`.
pub(crate) const E07_TO_E09: [Row; 3] = [
    (
        "E07",
        "",
        "The amounts do not agree with one another, or with the published rate",
        "`bsp_office judge` says which amounts, and what they have to be. See its causes",
        &[
            "A sale (TKTT): fare and taxes are not the sum of CA, CC and EX. Fare 200.00 and tax 35.00 need forms of 235.00",
            "A sale: the rate in record 5 is above the published rate of the airline on the date of issue. 00500 is 5.00 percent",
            "A sale without EX: the commission is not that rate of the fare. 5.00 percent of 200.00 is 10.00; taxes do not count",
            "A sale: the fare, a tax, a form or the commission is below zero",
            "A refund (RFND): fare and taxes are not the sum of the forms",
            "A refund: the fare, a tax, a form or the commission is above zero. All its amounts are below zero or zero",
        ],
    ),
    (
        "E08",
        "",
        "A refund or an exchange names a ticket that you have not reported for this airline. Of a CANX: its number was accepted for another airline",
        "Correct the number and the airline in record 3. Report the sale before its refund",
        &[],
    ),
    (
        "E09",
        "",
        "The ticket is cancelled, or was refunded or exchanged before, even in part. Of a CANX: the period of the ticket is closed, or the ticket was refunded or exchanged",
        "A ticket is given back once. To take back a refund or an exchange report a CANX of its number. After the close report a refund in place of the CANX",
        &[],
    ),
];

/// The codes `E10` to `E12`.
pub(crate) const E10_TO_E12: [Row; 3] = [
    (
        "E10",
        "",
        "No open period of the plan takes this date of issue: none has begun by the business day, or the date is after the last day of those that have",
        "Correct the date, if it is wrong. Else report it again on the first day of the next period; ask the office whether that is published",
        &[],
    ),
    (
        "E11",
        "",
        "The agent has as many transactions of this airline and period as the documents limit. Cancelled ones and CANX count",
        "Report it again after the close of the period, when the next one has begun. The office cannot change the limit (docs/OFFICE.md)",
        &[],
    ),
    (
        "E12",
        "",
        "The amounts do not agree with the ticket that is refunded or exchanged",
        "`bsp_office judge --file EARLIER`, with the file that has the ticket, says which amounts, and what they have to be. Or read the ticket with GET `/agents/{agent}/documents/{number}`. See its causes",
        &[
            "A refund (RFND): its fare is more than the ticket's",
            "A refund: a tax is more than the ticket's tax of this code, or the ticket has no tax of this code",
            "A refund: the rate in record 5 is not the one that the ticket has",
            "A refund: the commission is not that rate of the refunded fare",
            "An exchange (TKTT with EX): EX is not fare and taxes of the old ticket, whole. Of two old tickets it is the sum of both",
            "An exchange: the commission is not the rate of the difference of the fares. Where the new fare is not above the old one, it is 0",
        ],
    ),
];
