//! Laws of the verdicts, for callers.

ghost use Rattle.bsp_rules.specs.Meanings.{AcceptedCanxIsFree, AcceptedIsPassed, AcceptedTicketsLive, AgentIsReporters, HeldIsFound, RefusedIsFirst, WrongAgentIsFirst};
ghost use Rattle.bsp_rules.specs.Selected.{AreFoundFacts};
ghost use Rattle.bsp_rules.specs.Tax.{UntaxedInForm1};

/// The facts over items that are found by key are those over all of the agent's items, the count
/// apart. The items found are some of the agent's, among them all that share a number with the
/// transaction, in any order and some more than once. The contract is the law; the body has nothing
/// to do.
pub fn facts_by_key()
    ensures { AreFoundFacts }
{}

/// What each verdict says of the table. Accepted says that no row applies, row by row, and that the
/// period is the target. Held says that the agent is right and the facts have that period. Refused
/// says that this row is the first that applies. Of what is accepted the tickets live, and the
/// number of a CANX is free for it. The contract is the law; the body has nothing to do.
pub fn meaning_of_verdicts()
    ensures accepted { AcceptedIsPassed }
    ensures held { HeldIsFound }
    ensures wrong_agent { WrongAgentIsFirst }
    ensures agent { AgentIsReporters }
    ensures refused { RefusedIsFirst }
    ensures tickets { AcceptedTicketsLive }
    ensures canx { AcceptedCanxIsFree }
{}

/// In a period of form 1 ([`Plan::is_taxed`](bsp_calendar::Plan::is_taxed)) no tax is taken of what is
/// issued by its last day: [`hundredths_for`](crate::hundredths_for) and the tax are 0. The contract is
/// the law; the body has nothing to do.
pub fn untaxed_in_form_1()
    ensures { UntaxedInForm1 }
{}
