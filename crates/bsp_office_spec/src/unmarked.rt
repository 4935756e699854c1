//! The law that ledgers need no marks.

ghost use Rattle.bsp_office_spec.specs.Unmarked.{AgentsNeedNoMarks, AirlinesNeedNoMarks};

/// A ledger needs no marks, an agent's and an airline's, at any point of a run from sound rows. Of its items those
/// live that are a CANX, or whose number no CANX of it has. A memo is what the actions and closes seen since its
/// issue make of it. It is billed in the first close that admits it, at its amount then. So whoever has
/// the accepted transactions and what was seen can make the ledger again.
pub fn ledgers_need_no_marks()
    ensures agents { AgentsNeedNoMarks }
    ensures airlines { AirlinesNeedNoMarks }
{}
