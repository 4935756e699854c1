//! What is said on connections, and what is asked for it.

ghost use Rattle.std.specs.Prelude.{◌≡◌, ℕ, ◌≤◌, List, [], length, take, true, OnOk, OnErr};
ghost use Rattle.bsp_streams.specs.Talks.{HasAsked, HasGot, HasSent, IsSame, IsTalk};

use bsp_fields::NoRoom;

/// What a connection waits for.
#[derive(Clone, Copy)]
pub struct State {
    /// `go_on` can go on with what came.
    pub has_more: bool,
    /// Nothing more of the peer is taken.
    pub is_closed: bool,
    /// All that was put out was sent, and nothing that came can be answered.
    pub is_done: bool,
    /// The message that is begun and not whole, by how many came before it; none between messages.
    pub message: Option<usize>,
}

/// What is said on connections, and what a desk of type `D` is asked for it.
pub trait Protocol<D> {
    /// One connection.
    type Connection: Drop;

    // What the desk is asked, with what it answers.
    ghost Exchange: { Type 0 };

    // `steps old exchange new`: the desk may be asked and answer this, and is then the new one.
    ghost steps: { D → Self.Exchange → D → Type 0 };

    // `talks got exchanges sent connection`: these bytes came, the desk was asked this for them, these bytes were sent, and
    // the connection is so.
    ghost talks: { List ℕ → List Self.Exchange → List ℕ → Self.Connection → Type 0 };

    // The bytes that are to be sent next.
    ghost front: { Self.Connection → List ℕ };

    // All is sent, and nothing that came can be answered.
    ghost rests: { Self.Connection → Type 0 };

    /// A connection on which nothing came yet, by its number. It takes no memory.
    fn open(&self, number: u64) -> Self::Connection
        ensures { Self.talks [] [] [] result };

    /// Takes the next bytes of the peer.
    ///
    /// # Errors
    ///
    /// `NoRoom` where an allocation was refused. None of the bytes is taken then.
    fn feed(&self, connection: &mut Self::Connection, piece: &[u8]) -> Result<(), NoRoom>
        requires { IsTalk Self.talks connection.old }
        ensures taken { OnOk result (HasGot Self.talks piece.now connection.old connection.new) }
        ensures refused { OnErr result (IsSame Self.talks connection.old connection.new) };

    /// Goes on with what came, and answers one message of it at most.
    fn go_on(&self, connection: &mut Self::Connection, desk: &mut D)
        requires { IsTalk Self.talks connection.old }
        ensures { HasAsked Self.talks Self.steps desk.old desk.new connection.old connection.new };

    /// The bytes that are to be sent next.
    fn output<'c>(&self, connection: &'c Self::Connection) -> &'c [u8]
        ensures { result.now ≡ Self.front connection.now };

    /// Drops the first bytes of the output, which were sent.
    fn sent(&self, connection: &mut Self::Connection, count: usize)
        requires { count ≤ length (Self.front connection.old) }
        ensures { HasSent Self.talks (take count (Self.front connection.old)) connection.old connection.new };

    /// What the connection waits for.
    fn state(&self, connection: &Self::Connection) -> State
        ensures { result.is_done ≡ true → Self.rests connection.now };
}
