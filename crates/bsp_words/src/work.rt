//! From the words of a command line to the work that they ask for.
//!
//! A further command is a row of a table of `commands.rt`, a variant of [`Work`], and a function that makes its work of the values
//! found. Its name is also a row in `command_named`.

ghost use Rattle.std.specs.Prelude.{◌≡◌, IfOk, IfErr, [], map, option_map};
ghost use Rattle.clap.specs.Words.{HasKind, fault_of, found_of, rows_of, subcommand_of, subcommand_rows_of};
ghost use Rattle.bsp_words.specs.CommandLine.{AnswersWords, asked_book, asked_token, audit_work, body_work, book_of, check_work, command_named, explain_work, hotcheck_work, limits_in, office, run_work, serve_work, single_work, token_of, work_from, work_of};

use crate::command_line::office_command;
use crate::plan::{plan_given, plan_misfit};
use crate::setting::{judge_given, setting_misfit};
use crate::values::{flag_given, number_given, port_given, value_of};
use bsp_fields::{AgentCode, Day, DocNumber, PeriodCode, Token};
use clap::{ArgMatches, Error};
use std::alloc::{AllocError, Global};
use std::convert::AsStr;

/// Where the office's token is.
#[derive(Clone, Copy)]
pub enum TokenSource<'a> {
    /// `--token T`: in the words.
    Given(Token),
    /// `--token-file FILE`: it is the first line of the file. The FILE `-` is out of form.
    File(&'a str),
}

/// Where the book is.
#[derive(Clone, Copy)]
pub enum BookSource<'a> {
    /// In memory: it begins empty, and ends with the program.
    Memory,
    /// `--db FILE`: in this file, which is made where it is not there. The FILE `-` is out of form.
    File(&'a str),
}

/// A range of document numbers. Nothing says that the first is not after the last.
#[derive(Clone, Copy)]
pub struct Range {
    pub first: DocNumber,
    pub last: DocNumber,
}

/// What comes before the file that is judged.
#[derive(Clone, Copy)]
pub enum Earlier {
    /// `--file EARLIER`: the agent reports the next of the files.
    File,
    /// `--closed PERIOD`: the office closes this period.
    Closed(PeriodCode),
}

/// What a RET file is judged over.
#[derive(Drop)]
pub struct Setting<'a> {
    /// `--plan PLAN`: the files of the plan texts, the earliest first. There is one at least.
    pub plans: Vec<&'a str>,
    /// `--day DAY`: the business day.
    pub day: Day,
    /// `--agent A`: the agent that reports.
    pub agent: AgentCode,
    /// `--stock FIRST-LAST`: its ranges. There is one at least.
    pub stock: Vec<Range>,
    /// `--file EARLIER`: the RET files that it reported before, the earliest first.
    pub files: Vec<&'a str>,
    /// These files and `--closed PERIOD`, in the order of the words.
    pub earlier: Vec<Earlier>,
    /// `--statement PERIOD`: the period of the statement that is printed, if one is.
    pub statement: Option<PeriodCode>,
}

/// What the program is asked to do: one variant for each command, with its FILE and its options.
#[derive(Drop)]
pub enum Work<'a> {
    /// `check FILE`: to report on a RET file. The FILE `-` is standard input.
    Check {
        file: &'a str,
        /// `--quiet`: standard error says nothing of the file.
        quiet: bool,
    },
    /// `hotcheck FILE`: to report on a HOT file. The FILE `-` is standard input.
    Hotcheck {
        file: &'a str,
        /// As of `Check`.
        quiet: bool,
        /// `--list`: to print a line for each document and memo, too.
        list: bool,
    },
    /// `judge FILE`: to print the verdicts on a RET file. The FILE `-` is standard input.
    Judge {
        setting: Setting<'a>,
        file: &'a str,
    },
    /// `plan FILE`: to try a plan text. The FILE `-` is standard input.
    Plan {
        file: &'a str,
        /// `--after PUBLISHED`: the files of the texts published before, the earliest first.
        published: Vec<&'a str>,
        /// `--day DAY`: the business day on which the text is published.
        day: Option<Day>,
    },
    /// `plan --of BOOK`: to print the plan of the book that a file keeps. The BOOK `-` is out of form.
    PlanOf {
        book: &'a str,
    },
    /// `body REQUEST FILE`: to try the body of a request. The FILE `-` is standard input.
    Body {
        /// Its method and its target, as `POST /office/day`.
        request: &'a str,
        file: &'a str,
    },
    /// `explain CODE`: to explain a code, and without one to list all codes.
    Explain {
        code: Option<&'a str>,
    },
    /// `audit FILE`: to report on the book that a file keeps. The FILE `-` is out of form.
    Audit {
        file: &'a str,
    },
    /// `run`: to serve one connection on standard input and output.
    Run {
        token: TokenSource<'a>,
        book: BookSource<'a>,
    },
    /// `serve --port N`: to serve so many connections on a port of 127.0.0.1.
    Serve {
        /// From 1 to 65,535.
        port: u16,
        token: TokenSource<'a>,
        book: BookSource<'a>,
        /// How many connections, and how long they are waited for.
        limits: Limits,
        /// `--log`: standard error has a line for each reply.
        log: bool,
    },
}

/// How many connections are served, and how long they are waited for.
#[derive(Clone, Copy)]
pub struct Limits {
    /// From 1 to 1,000,000, in all.
    pub connections: u32,
    /// From 1 to 10,000, at once.
    pub peers: u32,
    /// The seconds that a message may take, and a peer for each 65,536 bytes of a response, at most 3,600. With 0 without
    /// end.
    pub timeout: u32,
    /// The seconds that a connection may be between messages, at most 3,600. With 0 without end.
    pub idle: u32,
}

/// Which value is out of its form. It is for people: no clause says which.
#[derive(Clone, Copy)]
pub enum Misfit {
    /// Neither `--token` nor `--token-file` is there.
    NoToken,
    /// Both are there.
    TwoTokens,
    /// The token is not 16 to 64 letters and digits.
    Token,
    /// A file is called `-`.
    Minus,
    /// The day is none of the calendar.
    Day,
    /// The agent is not eight digits with their check digit.
    Agent,
    /// A range is not two numbers of ten digits with a minus between them.
    Stock,
    /// A period is not five digits.
    Period,
    /// `plan` has no FILE, and no `--of`.
    NoPlan,
    /// `plan` has a FILE and `--of`, or `--after` or `--day` beside `--of`.
    TwoPlans,
}

/// Why the words ask for no work.
#[derive(Drop)]
pub enum WordsFault {
    /// `clap` refuses the words, or was refused memory; a request for help is reported so too.
    Refused(Error),
    /// `clap` takes the words, and a value in them is out of its form. It is the token, which
    /// exactly one of the two options gives, or the file of the book, of `audit` too. Or it is a day, the agent, a
    /// range or a period of `judge`, or of `plan` its day, or the FILE, which is there unless `--of` is.
    OutOfForm(Misfit),
    /// An allocation was refused.
    NoRoom,
}

fn check_given<'a>(matches: &ArgMatches<'a>) -> Option<Work<'a>>
    ensures { option_map work_of result ≡ check_work (rows_of (found_of matches.now)) }
{
    let Some(file) = value_of(matches, "FILE") else {
        return None;
    };
    let quiet = flag_given(matches, "quiet");
    Some(Work::Check { file, quiet })
}

fn hotcheck_given<'a>(matches: &ArgMatches<'a>) -> Option<Work<'a>>
    ensures { option_map work_of result ≡ hotcheck_work (rows_of (found_of matches.now)) }
{
    let Some(file) = value_of(matches, "FILE") else {
        return None;
    };
    let quiet = flag_given(matches, "quiet");
    let list = flag_given(matches, "list");
    Some(Work::Hotcheck { file, quiet, list })
}

fn explain_given<'a>(matches: &ArgMatches<'a>) -> Option<Work<'a>>
    ensures { option_map work_of result ≡ explain_work (rows_of (found_of matches.now)) }
{
    let code = value_of(matches, "CODE");
    Some(Work::Explain { code })
}

fn body_given<'a>(matches: &ArgMatches<'a>) -> Option<Work<'a>>
    ensures { option_map work_of result ≡ body_work (rows_of (found_of matches.now)) }
{
    let Some(request) = value_of(matches, "REQUEST") else {
        return None;
    };
    let Some(file) = value_of(matches, "FILE") else {
        return None;
    };
    Some(Work::Body { request, file })
}

fn audit_given<'a>(matches: &ArgMatches<'a>) -> Option<Work<'a>>
    ensures { option_map work_of result ≡ audit_work (rows_of (found_of matches.now)) }
{
    match value_of(matches, "FILE") {
        Some(file) if file != "-" => Some(Work::Audit { file }),
        _ => None,
    }
}

/// Where the token is, which one of the two options gives.
fn token_given<'a>(matches: &ArgMatches<'a>) -> Option<TokenSource<'a>>
    ensures { option_map token_of result ≡ asked_token (rows_of (found_of matches.now)) }
{
    let given = value_of(matches, "token");
    let file = value_of(matches, "token-file");
    match (given, file) {
        (Some(text), None) => {
            let Some(token) = Token::read(text.as_bytes()) else {
                return None;
            };
            Some(TokenSource::Given(token))
        }
        (None, Some(file)) if file != "-" => Some(TokenSource::File(file)),
        _ => None,
    }
}

/// Where the book is: in memory, unless a file is named.
fn book_given<'a>(matches: &ArgMatches<'a>) -> Option<BookSource<'a>>
    ensures { option_map book_of result ≡ asked_book (rows_of (found_of matches.now)) }
{
    match value_of(matches, "db") {
        None => Some(BookSource::Memory),
        Some(file) if file != "-" => Some(BookSource::File(file)),
        Some(_) => None,
    }
}

fn run_given<'a>(matches: &ArgMatches<'a>) -> Option<Work<'a>>
    ensures { option_map work_of result ≡ run_work (rows_of (found_of matches.now)) }
{
    let Some(token) = token_given(matches) else {
        return None;
    };
    let Some(book) = book_given(matches) else {
        return None;
    };
    Some(Work::Run { token, book })
}

fn limits_given(matches: &ArgMatches<'_>) -> Option<Limits>
    ensures { result ≡ limits_in (rows_of (found_of matches.now)) }
{
    let Some(connections) = number_given(matches, "connections") else {
        return None;
    };
    let Some(peers) = number_given(matches, "peers") else {
        return None;
    };
    let Some(timeout) = number_given(matches, "timeout") else {
        return None;
    };
    let Some(idle) = number_given(matches, "idle") else {
        return None;
    };
    Some(Limits {
        connections,
        peers,
        timeout,
        idle,
    })
}

fn serve_given<'a>(matches: &ArgMatches<'a>) -> Option<Work<'a>>
    ensures { option_map work_of result ≡ serve_work (rows_of (found_of matches.now)) }
{
    let Some(port) = port_given(matches) else {
        return None;
    };
    let Some(limits) = limits_given(matches) else {
        return None;
    };
    let log = flag_given(matches, "log");
    let Some(token) = token_given(matches) else {
        return None;
    };
    let Some(book) = book_given(matches) else {
        return None;
    };
    Some(Work::Serve {
        port,
        token,
        book,
        limits,
        log,
    })
}

/// A command whose values make no list.
#[derive(Clone, Copy)]
enum SingleName {
    Check,
    Hotcheck,
    Audit,
    Run,
    Serve,
    Body,
    Explain,
}

/// A command of the program.
#[derive(Clone, Copy)]
enum CommandName {
    Judge,
    Plan,
    Single(SingleName),
}

/// The command of this name.
#[tactic(auto, unfolding(crate::specs::CommandLine::command_named))]
fn command_named(name: &str) -> Option<CommandName>
    ensures { result ≡ command_named name.now }
{
    match name {
        "judge" => Some(CommandName::Judge),
        "plan" => Some(CommandName::Plan),
        "check" => Some(CommandName::Single(SingleName::Check)),
        "hotcheck" => Some(CommandName::Single(SingleName::Hotcheck)),
        "audit" => Some(CommandName::Single(SingleName::Audit)),
        "run" => Some(CommandName::Single(SingleName::Run)),
        "serve" => Some(CommandName::Single(SingleName::Serve)),
        "body" => Some(CommandName::Single(SingleName::Body)),
        "explain" => Some(CommandName::Single(SingleName::Explain)),
        _ => None,
    }
}

/// The work of a command whose values make no list.
fn single_given<'a>(name: SingleName, matches: &ArgMatches<'a>) -> Option<Work<'a>>
    ensures { option_map work_of result ≡ single_work name (rows_of (found_of matches.now)) }
{
    match name {
        SingleName::Check => check_given(matches),
        SingleName::Hotcheck => hotcheck_given(matches),
        SingleName::Audit => audit_given(matches),
        SingleName::Run => run_given(matches),
        SingleName::Serve => serve_given(matches),
        SingleName::Body => body_given(matches),
        SingleName::Explain => explain_given(matches),
    }
}

/// The work of the command that `clap` finds.
fn work_found<'a, S: AsStr>(
    alloc: Global,
    words: &[S],
    matches: &ArgMatches<'a>,
) -> Result<Option<Work<'a>>, AllocError>
    ensures { IfOk result (λ work. option_map work_of work ≡ work_from (map S.text words.now) (subcommand_rows_of matches.now)) }
{
    let Some((name, inner)) = matches.subcommand() else {
        return Ok(None);
    };
    match command_named(name) {
        Some(CommandName::Judge) => judge_given(alloc, words, inner),
        Some(CommandName::Plan) => plan_given(alloc, inner),
        Some(CommandName::Single(single)) => Ok(single_given(single, inner)),
        None => Ok(None),
    }
}

/// Which value of `run` or `serve` is out of its form.
fn token_misfit(matches: &ArgMatches<'_>) -> Misfit {
    match (value_of(matches, "token"), value_of(matches, "token-file")) {
        (None, None) => Misfit::NoToken,
        (Some(_), Some(_)) => Misfit::TwoTokens,
        (Some(text), None) if Token::read(text.as_bytes()).is_none() => Misfit::Token,
        _ => Misfit::Minus,
    }
}

/// Which value is out of its form.
fn misfit_found(matches: &ArgMatches<'_>) -> Misfit {
    let Some((name, inner)) = matches.subcommand() else {
        return Misfit::Minus;
    };
    match command_named(name) {
        Some(CommandName::Judge) => setting_misfit(inner),
        Some(CommandName::Plan) => plan_misfit(inner),
        Some(CommandName::Single(SingleName::Run | SingleName::Serve)) => token_misfit(inner),
        _ => Misfit::Minus,
    }
}

/// What `clap` finds in the words.
fn matches_found<'a, S: AsStr>(alloc: Global, words: &'a [S]) -> Result<ArgMatches<'a>, Error>
    ensures ok { IfOk result (λ m. (fault_of office (map S.text words.entry.now) ≡ [])
        × (subcommand_rows_of m ≡ subcommand_of office (map S.text words.entry.now))) }
    ensures err { IfErr result (HasKind (fault_of office (map S.text words.entry.now))) }
{
    let command = office_command(alloc)?;
    command.try_get_matches_from(words)
}

/// The answer to words that `clap` takes, by what it finds in them.
fn answer<'a, S: AsStr>(
    alloc: Global,
    words: &[S],
    matches: &ArgMatches<'a>,
) -> Result<Work<'a>, WordsFault>
    requires taken { fault_of office (map S.text words.now) ≡ [] }
    requires found { subcommand_rows_of matches.now ≡ subcommand_of office (map S.text words.now) }
    ensures { AnswersWords (map S.text words.now) result }
{
    match work_found(alloc, words, matches) {
        Ok(Some(work)) => Ok(work),
        Ok(None) => Err(WordsFault::OutOfForm(misfit_found(matches))),
        Err(_) => Err(WordsFault::NoRoom),
    }
}

/// The work that a command line asks for, its first word being the program's name: that which
/// `clap`'s matches of the words have.
///
/// # Errors
///
/// [`WordsFault::Refused`] where `clap` refuses the words, with a reason that it has for them, or
/// where an allocation was refused. [`WordsFault::OutOfForm`] where `clap` takes the words and a
/// value in them is out of its form, [`WordsFault::NoRoom`] where an allocation was refused then.
pub fn words<'a, S: AsStr>(alloc: Global, words: &'a [S]) -> Result<Work<'a>, WordsFault>
    ensures { AnswersWords (map S.text words.entry.now) result }
{
    match matches_found(alloc, words) {
        Ok(matches) => answer(alloc, words, &matches),
        Err(error) => Err(WordsFault::Refused(error)),
    }
}
