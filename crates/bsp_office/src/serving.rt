//! The commands `run` and `serve`: an office over a book in memory, over one in tables in memory, or over one that a file
//! keeps.

ghost use Rattle.std.specs.Prelude.{◌≡◌, true, false};
ghost use Rattle.bsp_store.specs.Faults.{is_refusal};

use crate::book_file::{make_private, say_unopened};
use crate::kept::{Failing, say_opened};
use crate::listening::{Port, serve_on};
use crate::log::Log;
use crate::remarks::say;
use crate::token_file::{is_directory, is_private, read_token};
use bsp_book::ListBook;
use bsp_check::{DONE, FAILED, REFUSED, WRONG_WORDS};
use bsp_desk::{Book, Desk};
use bsp_fields::Token;
use bsp_http::{Routes, serve};
use bsp_store::{OpenFault, SqlBook};
use bsp_streams::Noted;
use bsp_words::{BookSource, TokenSource};
use sqlite::{Alter, Start, Wary};
use std::io;
use std::net::{Ipv4Addr, SocketAddr, TcpListener};

/// Where an office answers.
#[derive(Clone, Copy)]
enum Place {
    /// Standard input and output: one connection.
    Standard,
    /// A port of 127.0.0.1.
    Port(Port),
}

/// An office: its routes, and its desk.
#[derive(Drop)]
struct Office<B: Book + Failing> {
    routes: Routes,
    desk: Desk<B>,
}

impl<B: Book + Failing + Drop> Office<B> {
    /// The office with this token over this book. None where an allocation was refused.
    fn open(rt: &HostRuntime, token: Token, book: B) -> Option<Office<B>> {
        let routes = Routes::new(rt.alloc()).ok()?;
        let desk = Desk::open(rt.alloc(), book, token).ok()?;
        Some(Office { routes, desk })
    }
}

/// The token in a file. Where there is none it says so on standard error, and answers the exit status.
fn token_in(rt: &HostRuntime, file: &str) -> Result<Token, u8> {
    match read_token(rt, file) {
        Ok(Some(token)) => {
            if !is_private(rt, file) {
                say(rt, file, &"others can read it");
            }
            Ok(token)
        }
        Ok(None) => {
            say(
                rt,
                file,
                &"its first line is not 16 to 64 letters and digits",
            );
            Err(WRONG_WORDS)
        }
        Err(_) if is_directory(rt, file) => {
            say(rt, file, &"it is a directory");
            Err(FAILED)
        }
        Err(error) => {
            say(rt, file, &error);
            Err(FAILED)
        }
    }
}

/// The token that is there, or the exit status.
fn token_from(rt: &HostRuntime, source: &TokenSource<'_>) -> Result<Token, u8> {
    match source {
        TokenSource::Given(token) => Ok(*token),
        TokenSource::File(file) => token_in(rt, file),
    }
}

/// The exit status where a file is not opened as a book for this cause.
fn opening_status(fault: &OpenFault) -> u8
    ensures refused { is_refusal fault.now ≡ true → result ≡ 1 }
    ensures failed { is_refusal fault.now ≡ false → result ≡ 3 }
{
    match fault {
        OpenFault::Damaged | OpenFault::OtherVersion => REFUSED,
        OpenFault::NoRoom | OpenFault::Failed(_) => FAILED,
    }
}

fn serve_standard<B: Book + Failing>(rt: &HostRuntime, office: &mut Office<B>) -> Result<(), u8> {
    let (mut input, mut output) = (Noted::new(rt.stdin()), Noted::new(rt.stdout()));
    match serve(
        rt.alloc(),
        &office.routes,
        &Log::new(rt, false),
        &mut input,
        &mut output,
        &mut office.desk,
    ) {
        Ok(_) => Ok(()),
        Err(_) => Err(FAILED),
    }
}

/// Binds a port of 127.0.0.1, and says on standard error that it listens, or why it does not.
fn listen(rt: &HostRuntime, port: u16) -> Option<TcpListener> {
    let address = SocketAddr::from((Ipv4Addr::LOCALHOST, port));
    match TcpListener::bind(rt, address) {
        Ok(listener) => {
            let _ = eprintln!(rt; "bsp_office: listening on {address}");
            Some(listener)
        }
        Err(error) if error.kind() == io::ErrorKind::AddrInUse => {
            let _ = eprintln!(rt; "bsp_office: port {port} is in use");
            None
        }
        Err(error) => {
            let _ = eprintln!(rt; "bsp_office: port {port}: {error}");
            None
        }
    }
}

/// Serves the connections of a port, and says on standard error why it ends.
fn serve_connections<B: Book + Failing>(
    rt: &HostRuntime,
    port: Port,
    office: &mut Office<B>,
) -> Result<(), u8> {
    let listener = listen(rt, port.port).ok_or(FAILED)?;
    let log = Log::new(rt, port.log);
    match serve_on(
        rt,
        listener,
        port.limits,
        &log,
        &office.routes,
        &mut office.desk,
    ) {
        Ok(()) => {
            log.all_served(port.limits.connections);
            Ok(())
        }
        Err(fault) => {
            let _ = eprintln!(rt; "bsp_office: {fault}");
            Err(FAILED)
        }
    }
}

/// Serves at a place, over this book. Each request that was answered is in the book by then, so it ends as it is.
fn serve_book<B: Book + Failing + Drop>(
    rt: &HostRuntime,
    place: &Place,
    token: Token,
    book: B,
) -> Result<(), u8> {
    let mut office = Office::open(rt, token, book).ok_or(FAILED)?;
    match place {
        Place::Standard => serve_standard(rt, &mut office),
        Place::Port(port) => serve_connections(rt, *port, &mut office),
    }
}

/// Serves at a place, over the book of a file that was opened, if it was. Else it says so on standard error, and answers
/// the exit status.
fn serve_opened<S: Alter + Drop>(
    rt: &HostRuntime,
    place: &Place,
    token: Token,
    file: &str,
    opened: Result<SqlBook<S>, OpenFault>,
) -> Result<(), u8> {
    match opened {
        Ok(book) => {
            say_opened(rt, file, book.list());
            serve_book(rt, place, token, book)
        }
        Err(fault) => {
            say_unopened(rt, file, &fault);
            Err(opening_status(&fault))
        }
    }
}

/// Serves at a place, over an empty book in tables in memory.
fn serve_tables(rt: &HostRuntime, place: &Place, token: Token, name: &str) -> Result<(), u8> {
    let opened = SqlBook::open_memory(rt.alloc());
    serve_opened(rt, place, token, name, opened)
}

/// Serves at a place, over the book that a file keeps.
fn serve_file<T: Start>(
    rt: &HostRuntime,
    place: &Place,
    token: Token,
    file: &str,
    start: T,
) -> Result<(), u8> {
    make_private(rt, file);
    let opened = SqlBook::open_path(rt, file, start);
    serve_opened(rt, place, token, file, opened)
}

/// The name that SQLite has for tables in memory.
const IN_MEMORY: &str = ":memory:";

/// A book in a file is opened with `Wary`: a commit does not rest on what a torn write leaves.
fn serve_at(
    rt: &HostRuntime,
    place: &Place,
    token: &TokenSource<'_>,
    book: &BookSource<'_>,
) -> Result<(), u8> {
    let token = token_from(rt, token)?;
    match book {
        BookSource::Memory => serve_book(rt, place, token, ListBook::new(rt.alloc())),
        BookSource::File(file) if *file == IN_MEMORY => serve_tables(rt, place, token, file),
        BookSource::File(file) => serve_file(rt, place, token, file, Wary),
    }
}

fn status_of(done: Result<(), u8>) -> u8 {
    match done {
        Ok(()) => DONE,
        Err(status) => status,
    }
}

/// Serves one connection on standard input and output, and answers the exit status.
pub(crate) fn run_office(rt: &HostRuntime, token: &TokenSource<'_>, book: &BookSource<'_>) -> u8 {
    status_of(serve_at(rt, &Place::Standard, token, book))
}

/// Serves the connections of a port, and answers the exit status.
pub(crate) fn serve_office(
    rt: &HostRuntime,
    port: Port,
    token: &TokenSource<'_>,
    book: &BookSource<'_>,
) -> u8 {
    status_of(serve_at(rt, &Place::Port(port), token, book))
}
