//! The law that a memo is billed at most once.

ghost use Rattle.bsp_memos.specs.Kept.{IsIssueSound, IsFitKept, IsBilledUnchanged, IsRightAtClose, IsRightLater, IsRightSinceIssue};
ghost use Rattle.bsp_memos.specs.Lives.{IsIssueKept, IsBilledOnce, IsNotBilledInDispute, IsNotBilledWithdrawn, IsCreditBilledFirst};

/// The law of billing, over every list of actions and closes that a memo may see from its issue on.
/// The contract is the law; the body has nothing to do.
pub fn billed_once()
    ensures issue { IsIssueKept }
    ensures first_close { IsBilledOnce }
    ensures disputed { IsNotBilledInDispute }
    ensures withdrawn { IsNotBilledWithdrawn }
    ensures credit { IsCreditBilledFirst }
{}

/// What actions and closes keep of a memo, over every list of them. Its fields fit together, and
/// once it is billed it stays as it is. On each day from its billing on a close would bill it, were
/// it unbilled. The contract is the law; the body has nothing to do.
pub fn billing_kept()
    ensures issue { IsIssueSound }
    ensures fit { IsFitKept }
    ensures billed { IsBilledUnchanged }
    ensures at_close { IsRightAtClose }
    ensures later { IsRightLater }
    ensures since_issue { IsRightSinceIssue }
{}
