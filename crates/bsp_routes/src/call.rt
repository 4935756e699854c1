//! The calls of the office, the agents and the airlines.

/// What the office asks, with path values of type `V`.
#[derive(Clone, Copy)]
pub enum OfficeCall<V> {
    /// Publish a plan text.
    Plan,
    /// Set the business day.
    Day,
    /// Register an agent.
    RegisterAgent,
    /// Register an airline.
    RegisterAirline,
    /// Allot a range of document numbers to an agent.
    Allot,
    /// Withdraw an agent's range.
    Withdraw,
    /// Report a RET file.
    Ret,
    /// Close a period.
    Close,
    /// The settlement of the period.
    Settlement(V),
}

/// What an agent asks, with path values of type `V`.
#[derive(Clone, Copy)]
pub enum AgentCall<V> {
    /// Report a RET file.
    Ret,
    /// The document of this number.
    Document(V),
    /// What the agent has in the period.
    Period(V),
    /// The ranges allotted to the agent.
    Stock,
    /// The memos to the agent.
    Memos,
    /// Dispute a memo.
    Dispute,
    /// Agree to a memo.
    Agree,
    /// The agent's billing statement of the period.
    Statement(V),
}

/// What an airline asks, with path values of type `V`.
#[derive(Clone, Copy)]
pub enum AirlineCall<V> {
    /// The airline's memos.
    Memos,
    /// Issue a memo.
    Issue,
    /// Uphold a disputed memo.
    Uphold,
    /// Withdraw a memo.
    Withdraw,
    /// Reduce a disputed memo.
    Reduce,
    /// The airline's HOT file of the period.
    Hot(V),
}

/// A call by the caller that its path names, an agent or an airline by its code. Path values are as they are
/// in the path: whether one is well-formed is read elsewhere.
#[derive(Clone, Copy)]
pub enum Call<V> {
    /// A call of the office.
    Office(OfficeCall<V>),
    /// A call of the agent of this code.
    Agent(V, AgentCall<V>),
    /// A call of the airline of this code.
    Airline(V, AirlineCall<V>),
}
