//! A resource that a path names, with the values of the path.

ghost use Rattle.std.specs.Prelude.{◌≡◌, length};
ghost use Rattle.bsp_routes.specs.Resources.{call_at};
ghost use Rattle.bsp_routes.specs.Matches.{IsMatch};

use crate::call::{AgentCall, AirlineCall, Call, OfficeCall};
use crate::resource::Resource;
use crate::route::Located;
use crate::values::first_two;
use matchit::Router;

/// A resource with the values of its path; a value that the path lacks is empty.
#[derive(Clone, Copy)]
pub struct Found<'p> {
    pub resource: Resource,
    pub first: &'p [u8],
    pub second: &'p [u8],
}

/// The resource whose pattern the path matches.
pub fn matched<'p>(router: &Router<Resource>, path: &'p str) -> Option<Found<'p>>
    ensures { IsMatch router.now path.now result }
{
    match router.at(path) {
        Ok(found) => {
            let (first, second) = first_two(&found.params);
            Some(Found {
                resource: *found.value,
                first,
                second,
            })
        }
        Err(_) => None,
    }
}

impl<'p> Found<'p> {
    /// The call at the path, a POST or not, by places.
    pub fn located(self, posts: bool) -> Located
        ensures { result ≡ record { resource = self.entry.resource; posts = posts; first = length self.entry.first.now; second = length self.entry.second.now } }
    {
        Located {
            resource: self.resource,
            posts,
            first: self.first.len(),
            second: self.second.len(),
        }
    }

    /// The call at the path, a POST or not.
    pub fn call(self, posts: bool) -> Call<&'p [u8]>
        ensures { result ≡ call_at self.entry.resource self.entry.first self.entry.second posts }
    {
        match self.resource {
            Resource::Plan => Call::Office(OfficeCall::Plan),
            Resource::Day => Call::Office(OfficeCall::Day),
            Resource::Agents => Call::Office(OfficeCall::RegisterAgent),
            Resource::Airlines => Call::Office(OfficeCall::RegisterAirline),
            Resource::Allot => Call::Office(OfficeCall::Allot),
            Resource::Withdraw => Call::Office(OfficeCall::Withdraw),
            Resource::OfficeRet => Call::Office(OfficeCall::Ret),
            Resource::Close => Call::Office(OfficeCall::Close),
            Resource::Settlement => Call::Office(OfficeCall::Settlement(self.first)),
            Resource::AgentRet => Call::Agent(self.first, AgentCall::Ret),
            Resource::Document => Call::Agent(self.first, AgentCall::Document(self.second)),
            Resource::Period => Call::Agent(self.first, AgentCall::Period(self.second)),
            Resource::Stock => Call::Agent(self.first, AgentCall::Stock),
            Resource::AgentMemos => Call::Agent(self.first, AgentCall::Memos),
            Resource::Dispute => Call::Agent(self.first, AgentCall::Dispute),
            Resource::Agree => Call::Agent(self.first, AgentCall::Agree),
            Resource::Statement => Call::Agent(self.first, AgentCall::Statement(self.second)),
            Resource::AirlineMemos if posts => Call::Airline(self.first, AirlineCall::Issue),
            Resource::AirlineMemos => Call::Airline(self.first, AirlineCall::Memos),
            Resource::Uphold => Call::Airline(self.first, AirlineCall::Uphold),
            Resource::WithdrawMemo => Call::Airline(self.first, AirlineCall::Withdraw),
            Resource::Reduce => Call::Airline(self.first, AirlineCall::Reduce),
            Resource::Hot => Call::Airline(self.first, AirlineCall::Hot(self.second)),
        }
    }
}
