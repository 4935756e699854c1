//! The desk: an office over a book, which answers requests.

ghost use Rattle.std.specs.Prelude.{◌≡◌, ◌↔◌, List, None, Some, IfOk, IsOk, MatchResult, OnErr, false, length, ℕ};
ghost use Rattle.bsp_desk.specs.Callers.{calling};
ghost use Rattle.bsp_desk.specs.Instructions.{IsMeant, IsReport, Outcome};
ghost use Rattle.bsp_desk.specs.Reading.{AreRead};
ghost use Rattle.bsp_desk.specs.Replies.{Refuses};
ghost use Rattle.bsp_desk.specs.Runs.{AreAnswered, RanOver};
ghost use Rattle.bsp_desk.specs.Steps.{Answers};
ghost use Rattle.bsp_desk.specs.Stops.{Outlives};
ghost use Rattle.bsp_messages.specs.declared.refusal.RequestRefusal.TheVariants.{OtherMethod};
ghost use Rattle.bsp_rows.specs.Rows.{Rows};
ghost use Rattle.bsp_rows.specs.Sound.{Sound};
ghost use Rattle.bsp_desk_writes.specs.Requests.{Request as Reading};

use crate::instructed::{carry_out, reads_back, take_file};
use crate::instruction::Instruction;
use crate::request::Request;
use crate::transaction::answer_call;
use bsp_book::{Book, BookFault};
use bsp_desk_writes::Content;
use bsp_messages::{Answer, RequestRefusal};
use bsp_ret::RetFile;
use bsp_routes::{Asking, Call, Methods, Reply};
use bsp_rows::{AgentCode, Token};
use std::alloc::Global;

/// The desk of an office over a book.
#[derive(Drop)]
pub struct Desk<B: Book> {
    alloc: Global,
    pub(crate) book: B,
    pub(crate) office: Token,
}

/// The reply to another method: 405 N03, with the methods of the path (RFC 9110, 10.2.1).
fn other_method(methods: Methods) -> Reply
    ensures reply { Refuses OtherMethod result }
    ensures allow { result.allow ≡ Some methods }
{
    let mut reply = RequestRefusal::OtherMethod.reply();
    reply.allow = Some(methods);
    reply
}

impl<B: Book> Desk<B> {
    /// Opens the desk of the office with this token. What is promised of answers holds over sound rows, where
    /// no transaction is open: so every opening of a book leaves them.
    ///
    /// # Errors
    ///
    /// `Failed`, where the book has failed, with the book as it was.
    pub fn open(alloc: Global, book: B, office: Token) -> Result<Desk<B>, (BookFault, B)>
        ensures opened { MatchResult result (λ desk. (desk.book ≡ book) × (desk.office ≡ office)) (λ refused. refused ≡ (BookFault.Failed, book)) }
        ensures unfailed { IsOk result ↔ B.means.has_failed book ≡ false }
    {
        if book.has_failed() {
            return Err((BookFault::Failed, book));
        }
        Ok(Desk {
            alloc,
            book,
            office,
        })
    }

    /// The book.
    pub fn book(&self) -> &B
        ensures { result.now ≡ self.now.book }
    {
        &self.book
    }

    /// The book, as the last answer left it.
    pub fn close(self) -> B
        ensures { result ≡ self.book }
    {
        self.book
    }

    /// Answers one request: over sound rows with the answer of `bsp_office_spec`, after which the book holds the rows
    /// that it leaves, or with a 503. A refusal and B01 leave the rows as they are. B03 is the reply if and only
    /// if the book has failed, and then to every request.
    ///
    /// No route and another method are answered 404 N02 and 405 N03 without a transaction, and take no memory. A 405 to
    /// another method lists those of the path, and no other reply has `Allow`.
    ///
    /// A stop after it leaves the rows that the book then holds. From the first B03 on it leaves the rows as they were
    /// before that request, or those that the request leaves, whatever was asked since.
    pub fn answer(&mut self, request: &Request<'_>) -> Reply
        ensures answered { Answers B.means self.old.book self.new.book request.now self.old.office result }
        ensures stops { Outlives B.means self.old.book self.new.book request.now self.old.office result }
        ensures office { self.new.office ≡ self.old.office }
    {
        self.reply(request)
    }

    /// What the office itself, or an agent itself, is answered by `bsp_office_spec`, before the answer is a text. It is one
    /// transaction, after which the book holds the rows that the answer leaves, sound again. A refusal leaves the rows as
    /// they are.
    ///
    /// # Errors
    ///
    /// `NoRoom`, and the rows are then as they were. `Failed`: a stop leaves them, or those after the instruction.
    pub fn outcome(&mut self, instruction: &Instruction<'_>) -> Result<Answer, BookFault>
        ensures outcome { Outcome B.means self.old.book self.new.book (IsMeant instruction.now) result }
        ensures office { self.new.office ≡ self.old.office }
    {
        carry_out(self.alloc, &mut self.book, instruction)
    }

    /// What an agent itself is answered to its RET file, before the answer is a text: as of `outcome`.
    ///
    /// # Errors
    ///
    /// `NoRoom`, and the rows are then as they were. `Failed`: a stop leaves them, or those after the file.
    pub fn report(&mut self, agent: AgentCode, file: &RetFile<'_>) -> Result<Answer, BookFault>
        ensures outcome { Outcome B.means self.old.book self.new.book (IsReport agent file.now) result }
        ensures office { self.new.office ≡ self.old.office }
    {
        reads_back(agent);
        take_file(self.alloc, &mut self.book, agent, file)
    }

    // The reply to a request.
    fn reply(&mut self, request: &Request<'_>) -> Reply
        ensures answered { Answers B.means self.old.book self.new.book request.now self.old.office result }
        ensures office { self.new.office ≡ self.old.office }
    {
        if self.book.has_failed() {
            return RequestRefusal::StoreFailed.reply();
        }
        match &request.call {
            Asking::NoRoute => RequestRefusal::NoRoute.reply(),
            Asking::OtherMethod(methods) => other_method(*methods),
            Asking::Call(call) => self.reply_to(request.token, call, &request.content),
        }
    }

    /// Answers requests of any callers, one after the other: each as `answer` does, over the book that the one
    /// before it left.
    ///
    /// However the requests are read, what their replies send is a run of `bsp_office_spec` from sound rows, in which a
    /// 503 changes nothing. So each agent's and each airline's answers are those of its own ledger, what was
    /// accepted is held, and a closed period stays. A number has one owner, what is accepted agrees with its
    /// tickets, and the agents' and the airlines' nets of a period have one sum.
    ///
    /// # Errors
    ///
    /// `NoRoom`, where there is no room for the replies. No request is then answered.
    pub fn run(&mut self, requests: &[Request<'_>]) -> Result<Vec<Reply>, BookFault>
        ensures answered { IfOk result (λ replies. AreAnswered B.means self.old.office self.old.book requests.now replies.items self.new.book) }
        ensures trust { B.means.trusts self.new.book → B.means.trusts self.old.book }
        ensures ran { IfOk result (λ replies. (readings : List Reading) → AreRead requests.now readings → B.means.trusts self.new.book → (rows : Rows) → Sound rows → B.means.holds self.old.book rows None →
            RanOver B.means self.new.book self.old.office rows readings replies.items) }
        ensures count { IfOk result (λ replies. length replies.items ≡ length requests.now) }
        ensures fault { OnErr result ((self.new.book ≡ self.old.book) × (result ≡ Err BookFault.NoRoom)) }
        ensures office { self.new.office ≡ self.old.office }
    {
        let Ok(mut replies) = Vec::with_capacity(self.alloc, requests.len()) else {
            return Err(BookFault::NoRoom);
        };
        for request in requests {
            let reply = self.answer(request);
            let _ = replies.push(reply);
        }
        Ok(replies)
    }

    // The reply to a call, which asks the book.
    fn reply_to(&mut self, token: Option<&[u8]>, call: &Call<&[u8]>, content: &Content<'_>) -> Reply
        ensures answered { Answers B.means self.old.book self.new.book (calling token.entry call.now content.now) self.old.office result }
        ensures office { self.new.office ≡ self.old.office }
    {
        match answer_call(
            self.alloc,
            &mut self.book,
            &self.office,
            token,
            call,
            content,
        ) {
            Ok(reply) => reply,
            Err(BookFault::NoRoom) => RequestRefusal::NoRoom.reply(),
            Err(BookFault::Failed) => RequestRefusal::StoreFailed.reply(),
        }
    }
}
