//! Refusals of a request: their codes and statuses.

ghost use Rattle.std.specs.Prelude.{◌≡◌};
ghost use Rattle.serde_json.specs.Written.{compact_text};
ghost use Rattle.bsp_messages.specs.Refusals.{code_object, memo_code, plan_code, stock_code, refusal_code, refusal_status};

use bsp_calendar::PlanFault;
use bsp_memos::MemoFault;
use bsp_routes::Status;

/// Why a change of an agent's stock is refused, in the order in which it is judged.
#[derive(Clone, Copy)]
pub enum StockFault {
    /// The first document is after the last: K01.
    FirstAfterLast,
    /// The agent is not registered: K02.
    NotRegistered,
    /// The range meets another one: K03.
    MeetsRange,
    /// The agent has no such range: K04.
    NoSuchRange,
    /// A number of the range has an accepted transaction: K05.
    RangeUsed,
}

/// Why a request is refused; its answer has a fixed text.
#[derive(Clone, Copy)]
pub enum RequestRefusal {
    /// The token is wrong, or the caller is unknown or has an invalid code: 403 N01.
    Forbidden,
    /// No request has the path: 404 N02.
    NoRoute,
    /// The path has other methods: 405 N03.
    OtherMethod,
    /// The body is malformed: 400 N04.
    Malformed,
    /// The agent's code has a wrong check digit: 409 N05.
    WrongAgentCode,
    /// The airline is not in the plan: 409 N06.
    AirlineNotInPlan,
    /// Of the plan: 400 P01 and P02, 409 P03 to P08; out of memory is 503 B01.
    Plan(PlanFault),
    /// Of an agent's stock: 409 K01 to K05.
    Stock(StockFault),
    /// Of a memo: 404 M01, 409 M02 to M08.
    Memo(MemoFault),
    /// The agent has not used the document: 404 D01.
    NoDocument,
    /// The period is unknown, or is not closed where it has to be: 409 S01.
    UnknownPeriod,
    /// A count or a total of the HOT file does not fit its place: 409 H01.
    HotTooLarge,
    /// The period of the HOT file is unknown or not closed: 409 H02.
    NoHot,
    /// There is no room, in memory or in size: 503 B01.
    NoRoom,
    /// The store failed: 503 B03.
    StoreFailed,
}

#[tactic(auto, unfolding(serde_json::proofs::OnLiterals::serde_json_on_literals))]
fn plan_body(fault: PlanFault) -> &'static [u8]
    ensures { result.now ≡ compact_text (code_object (plan_code fault)) }
{
    match fault {
        PlanFault::NotToml => b"{\"code\":\"P01\"}",
        PlanFault::WrongKey => b"{\"code\":\"P02\"}",
        PlanFault::OutOfOrder => b"{\"code\":\"P03\"}",
        PlanFault::DayBackwards => b"{\"code\":\"P04\"}",
        PlanFault::LateRate => b"{\"code\":\"P05\"}",
        PlanFault::NotEarliest => b"{\"code\":\"P06\"}",
        PlanFault::NotOver => b"{\"code\":\"P07\"}",
        PlanFault::Differs => b"{\"code\":\"P08\"}",
        PlanFault::NoMemory => b"{\"code\":\"B01\"}",
    }
}

#[tactic(auto, unfolding(serde_json::proofs::OnLiterals::serde_json_on_literals))]
fn stock_body(fault: StockFault) -> &'static [u8]
    ensures { result.now ≡ compact_text (code_object (stock_code fault)) }
{
    match fault {
        StockFault::FirstAfterLast => b"{\"code\":\"K01\"}",
        StockFault::NotRegistered => b"{\"code\":\"K02\"}",
        StockFault::MeetsRange => b"{\"code\":\"K03\"}",
        StockFault::NoSuchRange => b"{\"code\":\"K04\"}",
        StockFault::RangeUsed => b"{\"code\":\"K05\"}",
    }
}

#[tactic(auto, unfolding(serde_json::proofs::OnLiterals::serde_json_on_literals))]
fn memo_body(fault: MemoFault) -> &'static [u8]
    ensures { result.now ≡ compact_text (code_object (memo_code fault)) }
{
    match fault {
        MemoFault::NoSuchMemo => b"{\"code\":\"M01\"}",
        MemoFault::ReviewOver => b"{\"code\":\"M02\"}",
        MemoFault::StateForbids => b"{\"code\":\"M03\"}",
        MemoFault::AmountOutOfRange => b"{\"code\":\"M04\"}",
        MemoFault::OtherContent => b"{\"code\":\"M05\"}",
        MemoFault::CreditMemo => b"{\"code\":\"M06\"}",
        MemoFault::LimitReached => b"{\"code\":\"M07\"}",
        MemoFault::AgentNotRegistered => b"{\"code\":\"M08\"}",
    }
}

impl RequestRefusal {
    /// The body of the answer, `{"code":"X"}`.
    #[tactic(auto, unfolding(serde_json::proofs::OnLiterals::serde_json_on_literals))]
    pub fn body(self) -> &'static [u8]
        ensures { result.now ≡ compact_text (code_object (refusal_code self)) }
    {
        match self {
            RequestRefusal::Forbidden => b"{\"code\":\"N01\"}",
            RequestRefusal::NoRoute => b"{\"code\":\"N02\"}",
            RequestRefusal::OtherMethod => b"{\"code\":\"N03\"}",
            RequestRefusal::Malformed => b"{\"code\":\"N04\"}",
            RequestRefusal::WrongAgentCode => b"{\"code\":\"N05\"}",
            RequestRefusal::AirlineNotInPlan => b"{\"code\":\"N06\"}",
            RequestRefusal::Plan(fault) => plan_body(fault),
            RequestRefusal::Stock(fault) => stock_body(fault),
            RequestRefusal::Memo(fault) => memo_body(fault),
            RequestRefusal::NoDocument => b"{\"code\":\"D01\"}",
            RequestRefusal::UnknownPeriod => b"{\"code\":\"S01\"}",
            RequestRefusal::HotTooLarge => b"{\"code\":\"H01\"}",
            RequestRefusal::NoHot => b"{\"code\":\"H02\"}",
            RequestRefusal::NoRoom => b"{\"code\":\"B01\"}",
            RequestRefusal::StoreFailed => b"{\"code\":\"B03\"}",
        }
    }

    /// The status of the answer.
    pub fn status(self) -> Status
        ensures { result ≡ refusal_status self }
    {
        match self {
            RequestRefusal::Forbidden => Status::Forbidden,
            RequestRefusal::OtherMethod => Status::MethodNotAllowed,
            RequestRefusal::Malformed => Status::BadRequest,
            RequestRefusal::Plan(PlanFault::NotToml | PlanFault::WrongKey) => Status::BadRequest,
            RequestRefusal::NoRoute | RequestRefusal::NoDocument => Status::NotFound,
            RequestRefusal::Memo(MemoFault::NoSuchMemo) => Status::NotFound,
            RequestRefusal::NoRoom | RequestRefusal::StoreFailed => Status::ServiceUnavailable,
            RequestRefusal::Plan(PlanFault::NoMemory) => Status::ServiceUnavailable,
            _ => Status::Conflict,
        }
    }
}
