//! The reply of an answer.

ghost use Rattle.std.specs.Prelude.{◌≡◌, false, None, IfOk, IsOk};
ghost use Rattle.serde_json.specs.Written.{compact_text};
ghost use Rattle.bsp_messages.specs.Answers.{result_object};
ghost use Rattle.bsp_messages.specs.Replies.{IsReply, fault_takes_memory, takes_memory};
ghost use Rattle.bsp_messages.specs.declared.answer.Answer.TheVariants.{FileFault, Refused};

use crate::answer::Answer;
use crate::lists::{memos_text, ranges_text};
use crate::objects::{document_text, period_text, record_text};
use crate::refusal::RequestRefusal;
use crate::verdicts::results_text;
use bsp_fields::{Change, NoRoom};
use bsp_ret::{FaultCode, RetFault};
use bsp_routes::{Media, Reply, Status};
use std::alloc::Global;
use std::borrow::CowSlice;

/// `{"result":"done"}` or `{"result":"held"}`.
#[tactic(auto, unfolding(serde_json::proofs::OnLiterals::serde_json_on_literals))]
fn result_body(change: Change) -> &'static [u8]
    ensures { result.now ≡ compact_text (result_object change) }
{
    match change {
        Change::Done => b"{\"result\":\"done\"}",
        Change::Held => b"{\"result\":\"held\"}",
    }
}

/// A reply of 200.
fn found(media: Media, body: CowSlice<'static, u8, Global>) -> Reply
    ensures { result ≡ record { status = Status.Ok; media = media; allow = None; body = body.entry } }
{
    Reply {
        status: Status::Ok,
        media,
        allow: None,
        body,
    }
}

impl RequestRefusal {
    /// The reply to a request that is refused, without `Allow`. It takes no memory.
    pub fn reply(self) -> Reply
        ensures reply { IsReply (Refused self) result }
        ensures allow { result.allow ≡ None }
    {
        Reply {
            status: self.status(),
            media: Media::Json,
            allow: None,
            body: CowSlice::Borrowed(self.body()),
        }
    }
}

/// The reply to a RET file with a fault.
fn fault_reply(alloc: Global, fault: RetFault) -> Result<Reply, NoRoom>
    ensures reply { IfOk result (λ reply. IsReply (FileFault fault) reply) }
    ensures allow { IfOk result (λ reply. reply.allow ≡ None) }
    ensures fixed { fault_takes_memory fault.code ≡ false → IsOk result }
{
    if fault.code == FaultCode::F10 {
        return Ok(RequestRefusal::NoRoom.reply());
    }
    let text = record_text(alloc, fault)?;
    Ok(Reply {
        status: Status::UnprocessableEntity,
        media: Media::Json,
        allow: None,
        body: CowSlice::Owned(text),
    })
}

/// The reply of an answer: its status, its media type and its text, without `Allow`. Results and refusals have fixed
/// texts, but that of a RET file's fault other than out of memory. The texts of statements,
/// settlements and HOT files are those of the answer. Both take no memory.
///
/// # Errors
///
/// `NoRoom` where an allocation was refused.
pub fn reply_of(alloc: Global, answer: Answer) -> Result<Reply, NoRoom>
    ensures reply { IfOk result (λ reply. IsReply answer reply) }
    ensures allow { IfOk result (λ reply. reply.allow ≡ None) }
    ensures fixed { takes_memory answer ≡ false → IsOk result }
{
    let (media, body) = match answer {
        Answer::Changed(change) => (Media::Json, CowSlice::Borrowed(result_body(change))),
        Answer::Verdicts(verdicts) => (
            Media::Json,
            CowSlice::Owned(results_text(alloc, &verdicts)?),
        ),
        Answer::Document(shown) => (Media::Json, CowSlice::Owned(document_text(alloc, &shown)?)),
        Answer::Period(shown) => (Media::Json, CowSlice::Owned(period_text(alloc, &shown)?)),
        Answer::Ranges(ranges) => (Media::Json, CowSlice::Owned(ranges_text(alloc, &ranges)?)),
        Answer::Memos(memos) => (Media::Json, CowSlice::Owned(memos_text(alloc, &memos)?)),
        Answer::Report(text) => (Media::Text, CowSlice::Owned(text.into_bytes())),
        Answer::Hot(file) => (Media::Text, CowSlice::Owned(file)),
        Answer::FileFault(fault) => return fault_reply(alloc, fault),
        Answer::Refused(refusal) => return Ok(refusal.reply()),
    };
    Ok(found(media, body))
}
