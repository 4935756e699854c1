//! Answers a call in one transaction of the book.

ghost use Rattle.std.specs.Prelude.{◌≡◌, false, None, IfOk};
ghost use Rattle.bsp_desk.specs.Callers.{calling};
ghost use Rattle.bsp_desk.specs.Replies.{is_unavailable};
ghost use Rattle.bsp_desk.specs.Steps.{Commits, EndsRequest, EndsUnsent, Sends};

use crate::serve::serve;
use bsp_book::{Book, BookFault};
use bsp_desk_writes::{Content, give_up};
use bsp_messages::reply_of;
use bsp_routes::{Call, Reply, Status};
use bsp_rows::Token;
use std::alloc::Global;

/// Answers a call in one transaction, whose reply is made before the commit.
pub(crate) fn answer_call<B: Book>(
    alloc: Global,
    book: &mut B,
    office: &Token,
    token: Option<&[u8]>,
    call: &Call<&[u8]>,
    content: &Content<'_>,
) -> Result<Reply, BookFault>
    ensures kept { Commits B.means book.old book.new (calling token.entry call.now content.now) office.now result }
    ensures available { IfOk result (λ reply. is_unavailable reply.status ≡ false) }
    ensures allow { IfOk result (λ reply. reply.allow ≡ None) }
    ensures fault { EndsRequest B.means book.old book.new (calling token.entry call.now content.now) office.now result }
{
    book.begin()?;
    let reply = reply_within(alloc, book, office, token, call, content)?;
    book.commit()?;
    Ok(reply)
}

/// The reply to a call in the open transaction. What would be a 503 is given up.
fn reply_within<B: Book>(
    alloc: Global,
    book: &mut B,
    office: &Token,
    token: Option<&[u8]>,
    call: &Call<&[u8]>,
    content: &Content<'_>,
) -> Result<Reply, BookFault>
    requires { B.means.has_failed book.old ≡ false }
    ensures sent { Sends B.means book.old book.new (calling token.entry call.now content.now) office.now result }
    ensures available { IfOk result (λ reply. is_unavailable reply.status ≡ false) }
    ensures allow { IfOk result (λ reply. reply.allow ≡ None) }
    ensures fault { EndsUnsent B.means book.old book.new (calling token.entry call.now content.now) result }
{
    let answer = serve(alloc, book, office, token, call, content)?;
    let Ok(reply) = reply_of(alloc, answer) else {
        return give_up(book);
    };
    if reply.status == Status::ServiceUnavailable {
        return give_up(book);
    }
    Ok(reply)
}
