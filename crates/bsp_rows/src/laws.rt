//! What keeps the rows sound.

ghost use Rattle.bsp_rows.specs.Laws.{AcceptedIsFree, AcceptedIsSound, ActionIsSound, AgentIsSound, AgentPartIsEnough, AirlineIsSound, AirlinePartIsEnough, AskedAreTallies, BillingIsSound, CloseHasTerms, CloseIsSound, FactsAreByKey, FactsAreWithoutTarget, IssueIsSound, ItemsAreDistinct, OneTally, RangeIsSound, RequestIsSound, TalliesAreSums, WithdrawalIsSound};
ghost use Rattle.bsp_rows.specs.Rows.{no_rows};
ghost use Rattle.bsp_rows.specs.Sound.{Sound};

/// To have no rows is sound, and each change of a desk keeps sound rows so. The changes are a
/// transaction that the verdict accepts (whose key is free), a request for the plan, and a close
/// with its billings. Further changes are a single billing in a closed period, an issue, an action
/// on a memo, a range more or less, and a registration. The contract is the law; the body has
/// nothing to do.
pub fn sound_is_kept()
    ensures no_rows { Sound no_rows }
    ensures accepted { AcceptedIsSound }
    ensures free { AcceptedIsFree }
    ensures request { RequestIsSound }
    ensures close { CloseIsSound }
    ensures close_terms { CloseHasTerms }
    ensures billing { BillingIsSound }
    ensures issue { IssueIsSound }
    ensures action { ActionIsSound }
    ensures range { RangeIsSound }
    ensures withdrawal { WithdrawalIsSound }
    ensures agent { AgentIsSound }
    ensures airline { AirlineIsSound }
{}

/// Of sound rows the facts on a transaction are found by key. They are those over the items of the
/// agent that share a number with it, with the count of the tally of its agent, airline and target
/// period.
pub fn facts_from_rows()
    ensures facts { FactsAreByKey }
    ensures no_target { FactsAreWithoutTarget }
    ensures distinct { ItemsAreDistinct }
{}

/// What is looked up for an agent depends on the agent's part of the rows alone, and what is looked up for an
/// airline on the airline's part alone.
pub fn parts_are_enough()
    ensures agent { AgentPartIsEnough }
    ensures airline { AirlinePartIsEnough }
{}

/// The tally of a key is the counts and the sums of all rows under it, and no other tally of the key is. The
/// tallies that a question asks for are those of the rows under the keys that it asks for.
pub fn tallies_are_sums()
    ensures sums { TalliesAreSums }
    ensures one { OneTally }
    ensures asked { AskedAreTallies }
{}
