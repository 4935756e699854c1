//! The resources that paths name.

ghost use Rattle.std.specs.Prelude.{◌≡◌};
ghost use Rattle.bsp_routes.specs.Resources.{form, methods};
ghost use Rattle.bsp_routes.specs.Routed.{bytes_before};

use crate::methods::Methods;

/// A resource (RFC 9110, 3.1): what paths of one pattern name, whatever their values.
#[derive(Clone, Copy)]
pub enum Resource {
    Plan,
    Day,
    Agents,
    Airlines,
    Allot,
    Withdraw,
    OfficeRet,
    Close,
    Settlement,
    AgentRet,
    Document,
    Period,
    Stock,
    AgentMemos,
    Dispute,
    Agree,
    Statement,
    AirlineMemos,
    Uphold,
    WithdrawMemo,
    Reduce,
    Hot,
}

impl Resource {
    /// How many bytes a path of the resource has before its first value.
    pub fn bytes_before(self) -> usize
        ensures { result ≡ bytes_before (form self) }
    {
        match self {
            Resource::Settlement => 19,
            Resource::AgentRet | Resource::Document | Resource::Period | Resource::Stock => 8,
            Resource::AgentMemos | Resource::Dispute | Resource::Agree | Resource::Statement => 8,
            Resource::AirlineMemos | Resource::Uphold | Resource::WithdrawMemo => 10,
            Resource::Reduce | Resource::Hot => 10,
            _ => 0,
        }
    }

    /// The methods of the calls at the resource's paths.
    pub fn methods(self) -> Methods
        ensures { result ≡ methods self }
    {
        match self {
            Resource::AirlineMemos => Methods::GetAndPost,
            Resource::Settlement | Resource::Document | Resource::Period => Methods::Get,
            Resource::Stock | Resource::AgentMemos | Resource::Statement => Methods::Get,
            Resource::Hot => Methods::Get,
            _ => Methods::Post,
        }
    }
}
