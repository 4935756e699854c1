//! The codes of stock.

use crate::entry::Row;

/// The codes `K`.
pub(crate) const STOCKS: [Row; 5] = [
    (
        "K01",
        "409",
        "The first number is after the last",
        "Exchange the two",
        &[],
    ),
    (
        "K02",
        "409",
        "The agent is not registered, or its code has a wrong check digit",
        "Correct the code, its check digit included, or register the agent first (POST `/office/agents`)",
        &[],
    ),
    (
        "K03",
        "409",
        "A number of the range is in a range of some agent",
        "Take other numbers: ranges never meet",
        &[],
    ),
    (
        "K04",
        "409",
        "The agent has no range with this first and this last number",
        "Withdraw a range whole, with the first and the last number that it was allotted with. GET `/agents/{agent}/stock` shows an agent its ranges",
        &[],
    ),
    (
        "K05",
        "409",
        "A number of the range has an accepted transaction",
        "A range that was used stays. Allot a further one",
        &[],
    ),
];
