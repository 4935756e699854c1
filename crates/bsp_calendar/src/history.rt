//! The laws of a plan's history.

ghost use Rattle.bsp_calendar.specs.History.{ClosedStays, HistoryHolds, SoundKept, SoundMadeAgain};
ghost use Rattle.bsp_calendar.specs.Published.{UntaxedIsZero, opening};
ghost use Rattle.bsp_calendar.specs.SoundPlan.{IsSoundPlan};

/// What a plan has after any accepted requests, begun with a plan that meets the rules. It has the
/// entries of the start and of all texts, each once, in the order of their first publication. It
/// also has the last day that was set and the periods that were closed.
pub fn published_history()
    ensures { HistoryHolds }
{}

/// The opening meets the rules of a plan, and each accepted request keeps them. A plan that meets
/// them is made again from its entries, its day and its closes.
pub fn sound_plan()
    ensures opening { IsSoundPlan opening }
    ensures kept { SoundKept }
    ensures made_again { SoundMadeAgain }
{}

/// A closed period, its form, the terms, and the rates and taxes of the days that have begun stay the
/// same under every further request.
pub fn closed_stays()
    ensures { ClosedStays }
{}

/// In a period of form 1 ([`Plan::is_taxed`](crate::Plan::is_taxed)) the tax on commission is 0 on each
/// day up to its last.
pub fn untaxed_is_zero()
    ensures { UntaxedIsZero }
{}
