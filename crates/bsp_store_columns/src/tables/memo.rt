//! The table `memo`: the debit and credit memos (Resolution 850m), under their airline and number.

ghost use Rattle.bsp_rows.specs.CivilDay.{is_day};
ghost use Rattle.bsp_rows.specs.Reasons.{is_reason};
ghost use Rattle.std.specs.Prelude.{[], ◌≡◌, ◌∷◌, IfSome, Some, true, ◌<◌, ◌^◌, IsTrue};
ghost use Rattle.sqlite_value.specs.declared.value.Value.TheVariants.{Int, Text};
ghost use Rattle.sqlite.specs.Values.{or_null};
ghost use Rattle.bsp_store_columns.specs.Values.{agent_text, airline_text, number_text, period_text, IsAgent};
ghost use Rattle.bsp_store_columns.specs.Cells.{cell};
ghost use Rattle.bsp_rows.specs.Days.{day_number};
ghost use Rattle.bsp_rows.specs.Memos.{is_memo};
ghost use Rattle.bsp_rows.specs.Texts.{kind_text, state_text};
ghost use Rattle.bsp_rows.specs.Rows.{memo_key};

use crate::cells::Cell;
use crate::column::End;
use crate::entry::{Entry, ReadEntry};
use crate::{agent_digits, airline_digits, number_digits, period_digits};
use bsp_rows::{
    AgentCode, AirlineCode, Amount, Day, DocNumber, Memo, MemoFields, MemoKey, MemoKind, MemoState,
    PeriodCode, Reason,
};

/// The description of the table.
#[macro_export]
macro_rules! memo_table {
    ($rule:ident $($more:tt)*) => {
        $crate::of_table! { $rule $($more)* "memo" 16
            (1 "airline" [TEXT NOT NULL], 2 "number" [TEXT NOT NULL])
            (3 "agent" [TEXT NOT NULL REFERENCES "agent"], 4 "kind" [TEXT NOT NULL], 5 "amount" [INTEGER NOT NULL],
                6 "first_amount" [INTEGER NOT NULL], 7 "reason" [TEXT NOT NULL], 8 "issued" [INTEGER NOT NULL],
                9 "state" [TEXT NOT NULL], 10 "billed" [TEXT REFERENCES "period"]) }
    };
}

fn billed_cell(billed: Option<PeriodCode>) -> Cell
    ensures { cell result ≡ or_null period_text billed }
{
    match billed {
        Some(period) => Cell::Five(period_digits(period)),
        None => Cell::Null,
    }
}

/// The memo of these fields, and none where their amounts and their state do not fit.
fn memo_of(fields: MemoFields) -> Option<Memo>
    ensures same { IfSome result (λ memo. memo ≡ fields) }
    ensures fits { IfSome result (λ memo. is_memo memo ≡ true) }
    ensures back { is_memo fields ≡ true → result ≡ Some fields }
{
    Memo::restore(fields)
}

impl Entry for (MemoKey, Memo) {
    type Cells = [Cell; 10];

    ghost row = { λ e. airline_text e.0.airline ∷ number_text e.0.document ∷ agent_text e.1.agent ∷ Text (kind_text e.1.kind)
        ∷ Int e.1.amount ∷ Int e.1.issued_amount ∷ Text e.1.reason ∷ Int (day_number e.1.issued)
        ∷ Text (state_text e.1.state) ∷ or_null period_text e.1.billed ∷ [] };

    fn cells(&self) -> [Cell; 10] {
        let fields = *self.1.fields();
        [
            Cell::Three(airline_digits(self.0.airline)),
            Cell::Ten(number_digits(self.0.document)),
            Cell::Eight(agent_digits(fields.agent)),
            Cell::Kind(fields.kind),
            Cell::Int(fields.amount.get()),
            Cell::Int(fields.issued_amount.get()),
            Cell::Reason(fields.reason),
            Cell::Int(fields.issued.number()),
            Cell::State(fields.state),
            billed_cell(fields.billed),
        ]
    }
}

/// The values of the columns from the reason on.
type Rest = (Reason, (Day, (MemoState, (Option<PeriodCode>, End))));

impl ReadEntry for (MemoKey, Memo) {
    type Values = (
        AirlineCode,
        (DocNumber, (AgentCode, (MemoKind, (Amount, (Amount, Rest))))),
    );

    ghost columns = { λ e. let m = e.1 in
        (e.0.airline, (e.0.document, (m.agent, (m.kind, (m.amount, (m.issued_amount, (m.reason, (m.issued, (m.state, (m.billed, record {})))))))))) };

    ghost is_formed = { λ e. (e.0.airline < 10 ^ 3) × (e.0.document < 10 ^ 10) × IsAgent e.1.agent × (is_reason e.1.reason ≡ true)
        × IsTrue (is_day e.1.issued) × IfSome e.1.billed (λ period. period < 10 ^ 5) };

    ghost is_whole = { λ e. (memo_key e.1 ≡ e.0) × (is_memo e.1 ≡ true) };

    #[tactic(auto, using(crate::proofs::Words::amounts_fit))]
    fn form() {}

    fn of(values: Self::Values) -> Option<Self> {
        let (airline, (document, (agent, (kind, (amount, (issued_amount, rest)))))) = values;
        let (reason, (issued, (state, (billed, End)))) = rest;
        let memo = memo_of(MemoFields {
            airline,
            document,
            agent,
            kind,
            amount,
            issued_amount,
            reason,
            issued,
            state,
            billed,
        })?;
        Some((MemoKey { airline, document }, memo))
    }
}
