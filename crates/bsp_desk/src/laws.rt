//! Laws of requests as they are read, and of replies.

ghost use Rattle.bsp_desk.specs.Books.{BooksReplyAlike, RunsReplyAlike};
ghost use Rattle.bsp_desk.specs.HotReplies.{HotAnswersPass, HotRepliesPass};
ghost use Rattle.bsp_desk.specs.Laws.{AnswersAreOneReply, CallersReadAlike};
ghost use Rattle.bsp_desk.specs.Reading.{EachIsRead, ListsAreRead};

use bsp_book::Book;

/// Each request that comes in is read as some request of `bsp_office_spec`, and so is each list of requests.
/// What a reader gave as a RET file is to be one, as each `RetFile` is.
pub fn requests_are_read()
    ensures each { EachIsRead }
    ensures lists { ListsAreRead }
{}

/// Of one answer there is one reply. So take two runs, over any books and of any numbers of
/// requests, in which an agent begins with equal ledgers and sees the same. It is sent the same
/// replies to its own requests, byte for byte: their status, their media type and their body, a 503
/// apart. And so is an airline.
pub fn replies_are_alike()
    ensures one { AnswersAreOneReply }
    ensures callers { CallersReadAlike }
{}

/// Of two books that hold the same rows, a list and tables for one, the same requests have the same replies, byte
/// for byte, up to the first 503 of either. The office's own are among them. Where no reply is a 503, all are the
/// same, and so are the rows in the end.
pub fn books_reply_alike<A: Book, B: Book>()
    ensures runs { RunsReplyAlike }
    ensures books { BooksReplyAlike A.means B.means }
{}

/// A reply with status 200 to a request for a HOT file is a text that `check_hot` passes, with its totals.
/// So it is whatever book the desk is over.
pub fn hot_replies_pass<B: Book>()
    ensures sent { HotRepliesPass }
    ensures answered { HotAnswersPass B.means }
{}
