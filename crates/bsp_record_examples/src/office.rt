//! The requests of a period of an office, asked in one run over an empty book in memory, and the reports over the rows
//! that they leave.

use crate::fault::{Answered, Fault};
use crate::output::Output;
use crate::page::Page;
use crate::texts::text_of;
use bsp_book::{Book, ListBook};
use bsp_calendar::Plan;
use bsp_desk::{Content, Desk, Reply, Request, Token};
use bsp_fields::{AgentCode, AirlineCode, PeriodCode};
use bsp_hot::write_hot;
use bsp_memos::Memo;
use bsp_ret::{RetFile, read_ret};
use bsp_routes::Routes;
use bsp_rows::{Items, Memos};
use bsp_rules::Item;
use bsp_statement::{settlement, statement};
use std::alloc::Global;

/// The token of the office.
const OFFICE: &[u8] = b"officetoken00001";

/// The token of the agent.
const AGENT: &[u8] = b"agenttoken000001";

/// The token of the airline.
const AIRLINE: &[u8] = b"airlinetoken0125";

/// The request of a token.
fn post<'t>(
    routes: &Routes,
    token: &'t [u8],
    target: &'t [u8],
    content: Content<'t>,
) -> Request<'t> {
    Request {
        token: Some(token),
        call: routes.ask(b"POST", target),
        content,
    }
}

/// The request of the office.
fn office<'t>(routes: &Routes, target: &'t [u8], body: &'t [u8]) -> Request<'t> {
    post(routes, OFFICE, target, Content::Bytes(body))
}

/// The requests up to the end of the period: the agent reports a file, the airline issues a memo, and both are in the
/// period that is closed.
fn requests<'t>(routes: &Routes, plan: &'t [u8], file: &'t RetFile<'t>) -> [Request<'t>; 9] {
    let agent = br#"{"agent":"12345675","token":"agenttoken000001"}"#;
    let airline = br#"{"airline":"125","token":"airlinetoken0125"}"#;
    let range = br#"{"agent":"12345675","first":"1300000000","last":"1300009999"}"#;
    let memo =
        br#"{"agent":"12345675","amount":5000,"document":"6000000001","kind":"ADMA","reason":"fare"}"#;
    [
        office(routes, b"/office/plan", plan),
        office(routes, b"/office/day", br#"{"day":"2024-01-05"}"#),
        office(routes, b"/office/agents", agent),
        office(routes, b"/office/airlines", airline),
        office(routes, b"/office/stock/allot", range),
        post(routes, AGENT, b"/agents/12345675/ret", Content::File(file)),
        post(
            routes,
            AIRLINE,
            b"/airlines/125/memos",
            Content::Bytes(memo),
        ),
        office(routes, b"/office/day", br#"{"day":"2024-01-20"}"#),
        office(routes, b"/office/close", br#"{"period":"24011"}"#),
    ]
}

/// Appends replies, each on a line.
fn show_replies(replies: &[Reply], out: &mut Output) -> Answered {
    for reply in replies {
        out.say(reply.status.code());
        out.push(" ");
        out.characters(reply.body.as_slice());
        out.push("\n");
        if reply.status.code() == 503 {
            return Err(Fault::Memory);
        }
    }
    Ok(())
}

/// Asks requests in one run.
fn run(desk: &mut Desk<ListBook>, requests: &[Request<'_>], out: &mut Output) -> Answered {
    let replies = desk.run(requests)?;
    show_replies(&replies, out)
}

/// What reports are of, and over.
#[derive(Clone, Copy)]
struct Rows<'r> {
    alloc: Global,
    agent: AgentCode,
    airline: AirlineCode,
    period: PeriodCode,
    items: &'r [Item],
    memos: &'r [Memo],
    plan: &'r Plan,
}

/// Appends the statement of the agent, the settlement of the period and the HOT file of the airline.
fn show_all(of: &Rows<'_>, out: &mut Output) -> Answered {
    out.push(statement(of.alloc, of.agent, of.period, of.items, of.memos, of.plan)?.as_str());
    out.push(
        settlement(of.alloc, of.period, of.items, of.memos, of.plan)?
            .text
            .as_str(),
    );
    out.characters(&write_hot(of.alloc, of.airline, of.period, of.items, of.memos, of.plan)?);
    Ok(())
}

/// Appends whether the rows of a book are sound.
fn show_soundness(book: &ListBook, out: &mut Output) -> Answered {
    out.push(if book.sound()? {
        "sound\n"
    } else {
        "not sound\n"
    });
    Ok(())
}

/// Appends the reports over the rows of the agent.
fn show_reports(alloc: Global, book: &mut ListBook, out: &mut Output) -> Answered {
    let agent = AgentCode::read(b"12345675")?;
    let airline = AirlineCode::read(b"125")?;
    let period = PeriodCode::read(b"24011")?;
    let items = book.items(Items::OfAgent(agent))?;
    let memos = book.memos(Memos::OfAgent(agent))?;
    let of = Rows {
        alloc,
        agent,
        airline,
        period,
        items: &items,
        memos: &memos,
        plan: book.plan(),
    };
    show_all(&of, out)
}

/// A desk over an empty book.
fn new_desk(alloc: Global) -> Result<Desk<ListBook>, Fault> {
    let Some(office) = Token::read(OFFICE) else {
        return Err(Fault::Case);
    };
    Desk::open(alloc, ListBook::new(alloc), office).map_err(|_| Fault::Memory)
}

/// Asks requests of a new desk. Appends whether the book that they leave is sound, and the reports over it.
fn ask(alloc: Global, requests: &[Request<'_>], out: &mut Output) -> Answered {
    let mut desk = new_desk(alloc)?;
    run(&mut desk, requests, out)?;
    let mut book = desk.close();
    show_soundness(&book, out)?;
    show_reports(alloc, &mut book, out)
}

/// Asks the requests with a plan and a file.
fn ask_with(alloc: Global, plan: &[u8], file: &RetFile<'_>, out: &mut Output) -> Answered {
    match Routes::new(alloc) {
        Ok(routes) => ask(alloc, &requests(&routes, plan, file), out),
        Err(_) => Err(Fault::Memory),
    }
}

/// Asks the requests with a plan and the text of a file.
fn ask_with_text(alloc: Global, plan: &[u8], text: &[u8], out: &mut Output) -> Answered {
    match read_ret(alloc, text) {
        Ok(file) => ask_with(alloc, plan, &file, out),
        Err(fault) => Err(Fault::from(fault)),
    }
}

/// Asks the requests with a plan and a file; `; ` is between them.
pub fn answer(page: &Page<'_>, texts: &str, out: &mut Output) -> Answered {
    let Some((plan, file)) = texts.split_once("; ") else {
        return Err(Fault::Case);
    };
    let plan = text_of(page, plan)?;
    let file = text_of(page, file)?;
    ask_with_text(page.alloc, &plan, &file, out)
}
