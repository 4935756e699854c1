//! Laws of requests and their answers.

ghost use Rattle.bsp_office_spec.specs.Laws.{AgentIsIsolated, AgentsAreAlike, AirlineIsAnsweredByLedger, AirlineIsIsolated, AirlineLedgerIsOfSights, AirlinesAreAlike, ClosedPeriodsStay, EachFileIsRead, EachRequestIsRead, FilesAreTaken, HotFilesShowNets, LedgerIsOfSights, NetsAlwaysAddUp, NumbersHaveOneOwner, OthersAreForbidden, OwnIsAnsweredByLedger, ReadRequestsFit, RefusalsChangeNothing, RepeatsAreHeld, ReportsStay, RunIsSound, RunsAgreeWithTickets, RunsHoldRepeats, RunsShowTheSame, StepIsSound};
ghost use Rattle.bsp_office_spec.specs.Printed.{HotFilesPrintNets, RunsPrintNets, SettlementsPrintNets, StatementsPrintNets};
ghost use Rattle.bsp_office_spec.specs.Texts.{AnswersAreOneText};

/// Each body has a reading as a RET file, its transactions or its first fault; and so each method, target and
/// body is read as some request. A plan text with a list of 2^63 entries, more than any memory holds, is read
/// as out of memory.
pub fn requests_are_read()
    ensures files { EachFileIsRead }
    ensures requests { EachRequestIsRead }
{}

/// Any request keeps sound rows sound, whatever it is answered, and so does any run of requests. An
/// answer that is neither a done change nor a list of verdicts leaves the rows as they are. So does
/// every refusal, every change that is held, and whatever is shown. A request fits where each
/// transaction of its file is a group of the RET format, as every request is that is read from
/// bytes.
pub fn steps_are_sound()
    ensures fit { ReadRequestsFit }
    ensures sound { StepIsSound }
    ensures refusals { RefusalsChangeNothing }
    ensures runs { RunIsSound }
{}

/// An agent's requests are answered by its ledger: its own rows and the plan. A request that names
/// it with another token is forbidden. Over any run of requests of any callers its ledger is the
/// fold of what it sees, and the answers to it are those of that ledger. So two runs in which it
/// starts with the same and sees the same give it the same answers.
pub fn agent_isolation()
    ensures own { OwnIsAnsweredByLedger }
    ensures others { OthersAreForbidden }
    ensures seen { LedgerIsOfSights }
    ensures isolated { AgentIsIsolated }
    ensures alike { AgentsAreAlike }
{}

/// An answer is sent in one way: two messages of it have one status, one media type and the same bytes.
pub fn answers_are_one_text()
    ensures { AnswersAreOneText }
{}

/// What a file has accepted stays accepted over any run of requests, after a CANX too. Whenever its
/// agent or the office reports it again, at any place of a file, it is held in the period of its
/// acceptance. So a transaction that a reply of a run has accepted is held at each later place of
/// the same file. It is also held by each later reply of verdicts to its agent, whatever its token
/// by then, or to the office.
pub fn repeats_are_held()
    ensures taken { FilesAreTaken }
    ensures held { RepeatsAreHeld }
    ensures runs { RunsHoldRepeats }
{}

/// In sound rows the accepted transactions of a document number are of one agent.
pub fn numbers_have_one_owner()
    ensures { NumbersHaveOneOwner }
{}

/// What a run has accepted agrees with its tickets, which are accepted of the same agent. Of an
/// RFND the fare and each tax are at most the ticket's in size. An exchange names one ticket or two
/// different ones, and its EX is the fares and taxes of all of them. So no value is given back twice.
pub fn values_agree()
    ensures { RunsAgreeWithTickets }
{}

/// In sound rows the nets of a period, each agent's of its own ledger and each airline's of its own,
/// have one sum. A net is cash less commission less the tax on it, and the memos. An airline's is the
/// net of the totals of its HOT file of a closed period, in either form.
///
/// These nets are what is printed. The last line of a statement is TOT with the agent's net, that of a
/// HOT file is BFT99 with the airline's. A settlement has each of them in its lines, and their sum as both
/// of its totals. A report that a run has sent prints the nets that the ledgers have in the end.
pub fn nets_add_up()
    ensures sums { NetsAlwaysAddUp }
    ensures shown { HotFilesShowNets }
    ensures statements { StatementsPrintNets }
    ensures files { HotFilesPrintNets }
    ensures settlements { SettlementsPrintNets }
    ensures runs { RunsPrintNets }
{}

/// An airline's requests are answered by its ledger: its own rows, the codes of the registered
/// agents and the plan; one with another token is forbidden. Over any run of requests of any
/// callers on sound rows its ledger is the fold of what it sees. The answers to it, HOT files among
/// them, are those of that ledger. So two runs in which it starts with the same and sees the same
/// give it the same answers.
pub fn airline_isolation()
    ensures own { AirlineIsAnsweredByLedger }
    ensures seen { AirlineLedgerIsOfSights }
    ensures isolated { AirlineIsIsolated }
    ensures alike { AirlinesAreAlike }
{}

/// A closed period stays as it is over any run of requests: its days, its form, its items and the
/// memos billed in it. So do the settlement, each agent's statement and each airline's HOT file of it.
/// Once a run has shown one of these, each later request for it has the same answer, but for 503
/// and for 403.
pub fn closed_periods_stay()
    ensures rows { ClosedPeriodsStay }
    ensures reports { ReportsStay }
    ensures runs { RunsShowTheSame }
{}
