//! Which body each call has.

ghost use Rattle.std.specs.Prelude.{◌≡◌};
ghost use Rattle.bsp_routes.specs.Calls.{body_of, method_of, method_with};

use crate::call::{AgentCall, AirlineCall, Call, OfficeCall};

/// Which body a call has.
#[derive(Clone, Copy)]
pub enum BodyKind {
    /// None: the method is GET, and a body that comes is ignored.
    NoBody,
    /// A RET file.
    Ret,
    /// A plan text.
    PlanText,
    /// A JSON object.
    Json,
}

impl<V: Copy> Call<V> {
    /// The body of the call.
    pub fn body_kind(self) -> BodyKind
        ensures value { result ≡ body_of self }
        ensures method { method_of self ≡ method_with result }
    {
        match self {
            Call::Office(OfficeCall::Plan) => BodyKind::PlanText,
            Call::Office(OfficeCall::Ret) | Call::Agent(_, AgentCall::Ret) => BodyKind::Ret,
            Call::Office(OfficeCall::Settlement(_)) => BodyKind::NoBody,
            Call::Office(_) => BodyKind::Json,
            Call::Agent(_, AgentCall::Dispute | AgentCall::Agree) => BodyKind::Json,
            Call::Agent(..) => BodyKind::NoBody,
            Call::Airline(_, AirlineCall::Memos | AirlineCall::Hot(_)) => BodyKind::NoBody,
            Call::Airline(..) => BodyKind::Json,
        }
    }
}
