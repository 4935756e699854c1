//! HTTP as what is said on many connections.

ghost use Rattle.std.specs.Prelude.{◌≡◌, ◌⊎◌, ◌&&◌, ◌≤◌, [], length, take, not, true, false, OnOk, OnErr};
ghost use Rattle.bsp_connection.specs.Begun.{BegunAt};
ghost use Rattle.bsp_connection.specs.Exchanges.{does};
ghost use Rattle.bsp_connection.specs.Outputs.{HasOutput};
ghost use Rattle.bsp_connection.specs.Progress.{IsOn};
ghost use Rattle.bsp_connection.specs.Talks.{HasTaken, IsFresh, IsSame, IsSent, Rests, Talks};
ghost use Rattle.bsp_streams.specs.Talks.{HasAsked, HasGot, HasSent, IsSame as IsAsItWas, IsTalk};

use crate::answering::go_on;
use crate::connection::Connection;
use crate::service::Service;
use bsp_fields::NoRoom;
use bsp_streams::{Protocol, State};
use std::alloc::Global;

/// HTTP/1.1 over a service that answers its messages.
#[derive(Drop)]
pub struct Http<'s, S> {
    /// Where connections take memory.
    pub alloc: Global,
    /// What answers the messages.
    pub service: &'s S,
}

impl<'s, D, S: Service<D>> Protocol<D> for Http<'s, S> {
    ghost use Rattle.bsp_connection.specs.Exchanges.{Exchange};

    type Connection = Connection<S::Found, S::Body>;

    ghost Exchange = { Exchange };

    ghost steps = { does S.means };

    ghost talks = { Talks S.means S.reads };

    ghost front = { λ c. c.out.front };

    ghost rests = { Rests S.means S.reads };

    fn open(&self, number: u64) -> Self::Connection
        ensures talks { Talks S.means S.reads [] [] [] result }
        ensures fresh { IsFresh result }
        ensures number { result.number ≡ number }
    {
        Connection::new(self.alloc, number)
    }

    fn feed(&self, connection: &mut Self::Connection, piece: &[u8]) -> Result<(), NoRoom>
        requires { IsTalk (Talks S.means S.reads) connection.old }
        ensures taken { OnOk result (HasGot (Talks S.means S.reads) piece.now connection.old connection.new) }
        ensures refused { OnErr result (IsAsItWas (Talks S.means S.reads) connection.old connection.new) }
        ensures came { OnOk result (HasTaken connection.old piece.now connection.new) }
        ensures same { OnErr result (IsSame connection.old connection.new) }
    {
        connection.feed(piece)
    }

    fn go_on(&self, connection: &mut Self::Connection, desk: &mut D)
        requires { IsTalk (Talks S.means S.reads) connection.old }
        ensures asked { HasAsked (Talks S.means S.reads) (does S.means) desk.old desk.new connection.old connection.new }
        ensures goes_on { connection.old.closed ≡ false → connection.old.out.apart ≡ false → IsOn connection.old connection.new }
        ensures number { connection.new.number ≡ connection.old.number }
    {
        go_on(connection, self.service, desk);
        connection.give_back();
    }

    fn output<'c>(&self, connection: &'c Self::Connection) -> &'c [u8] {
        connection.output()
    }

    fn sent(&self, connection: &mut Self::Connection, count: usize)
        requires { count ≤ length connection.old.out.front }
        ensures sent { HasSent (Talks S.means S.reads) (take count connection.old.out.front) connection.old connection.new }
        ensures only { IsSent connection.old (take count connection.old.out.front) connection.new }
    {
        connection.sent(count);
    }

    fn state(&self, connection: &Self::Connection) -> State
        ensures done { result.is_done ≡ true → Rests S.means S.reads connection.now }
        ensures not_done { result.is_done ≡ false → HasOutput connection.now.out ⊎ ((connection.now.closed ≡ false) × (connection.now.has_more ≡ true)) }
        ensures more { result.has_more ≡ (connection.now.has_more && not connection.now.out.apart) }
        ensures closed { result.is_closed ≡ connection.now.closed }
        ensures message { BegunAt connection.now result.message }
    {
        State {
            has_more: connection.can_go_on(),
            is_closed: connection.is_closed(),
            is_done: connection.is_done(),
            message: connection.begun(),
        }
    }
}
