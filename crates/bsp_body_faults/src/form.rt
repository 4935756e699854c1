//! Which form the body of each call has.

ghost use Rattle.std.specs.Prelude.{◌≡◌};
ghost use Rattle.bsp_body_faults.specs.Forms.{agent_form, airline_form, form_of, office_form};

use crate::key::Key;
use bsp_routes::{AgentCall, AirlineCall, Call, OfficeCall};

/// The form of a JSON body: its keys.
#[derive(Clone, Copy, PartialEq, Eq)]
pub enum JsonForm {
    /// `day`.
    Day,
    /// `agent`, `token`.
    AgentRegistration,
    /// `airline`, `token`.
    AirlineRegistration,
    /// `agent`, `first`, `last`.
    StockChange,
    /// `period`.
    Period,
    /// `airline`, `document`.
    NamedMemo,
    /// `document`.
    Document,
    /// `amount`, `document`.
    Reduction,
    /// `agent`, `amount`, `document`, `kind`, `reason`.
    Issue,
}

/// The form of the body of a call.
#[derive(Clone, Copy, PartialEq, Eq)]
pub enum BodyForm {
    /// None: the method is GET, and a body that comes is ignored.
    NoBody,
    /// A RET file.
    Ret,
    /// A plan text.
    PlanText,
    /// A JSON object.
    Json(JsonForm),
}

impl JsonForm {
    /// The keys of the body, in alphabetical order.
    pub fn keys(self) -> &'static [Key] {
        match self {
            JsonForm::Day => &[Key::Day],
            JsonForm::AgentRegistration => &[Key::Agent, Key::Token],
            JsonForm::AirlineRegistration => &[Key::Airline, Key::Token],
            JsonForm::StockChange => &[Key::Agent, Key::First, Key::Last],
            JsonForm::Period => &[Key::Period],
            JsonForm::NamedMemo => &[Key::Airline, Key::Document],
            JsonForm::Document => &[Key::Document],
            JsonForm::Reduction => &[Key::Amount, Key::Document],
            JsonForm::Issue => &[
                Key::Agent,
                Key::Amount,
                Key::Document,
                Key::Kind,
                Key::Reason,
            ],
        }
    }
}

/// The form of the body of an office's call.
fn office_form<V: Copy>(call: OfficeCall<V>) -> BodyForm
    ensures { result ≡ office_form call }
{
    match call {
        OfficeCall::Plan => BodyForm::PlanText,
        OfficeCall::Day => BodyForm::Json(JsonForm::Day),
        OfficeCall::RegisterAgent => BodyForm::Json(JsonForm::AgentRegistration),
        OfficeCall::RegisterAirline => BodyForm::Json(JsonForm::AirlineRegistration),
        OfficeCall::Allot | OfficeCall::Withdraw => BodyForm::Json(JsonForm::StockChange),
        OfficeCall::Ret => BodyForm::Ret,
        OfficeCall::Close => BodyForm::Json(JsonForm::Period),
        OfficeCall::Settlement(_) => BodyForm::NoBody,
    }
}

/// The form of the body of an agent's call.
fn agent_form<V: Copy>(call: AgentCall<V>) -> BodyForm
    ensures { result ≡ agent_form call }
{
    match call {
        AgentCall::Ret => BodyForm::Ret,
        AgentCall::Dispute | AgentCall::Agree => BodyForm::Json(JsonForm::NamedMemo),
        _ => BodyForm::NoBody,
    }
}

/// The form of the body of an airline's call.
fn airline_form<V: Copy>(call: AirlineCall<V>) -> BodyForm
    ensures { result ≡ airline_form call }
{
    match call {
        AirlineCall::Issue => BodyForm::Json(JsonForm::Issue),
        AirlineCall::Uphold | AirlineCall::Withdraw => BodyForm::Json(JsonForm::Document),
        AirlineCall::Reduce => BodyForm::Json(JsonForm::Reduction),
        AirlineCall::Memos | AirlineCall::Hot(_) => BodyForm::NoBody,
    }
}

/// The form of the body of a call.
pub fn body_form<V: Copy>(call: Call<V>) -> BodyForm
    ensures { result ≡ form_of call }
{
    match call {
        Call::Office(call) => office_form(call),
        Call::Agent(_, call) => agent_form(call),
        Call::Airline(_, call) => airline_form(call),
    }
}
