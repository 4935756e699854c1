//! Whether the body of a request is wanted, before it comes.

ghost use Rattle.std.specs.Prelude.{◌≡◌, false};
ghost use Rattle.bsp_book.specs.Calls.{LooksUp};
ghost use Rattle.bsp_desk.specs.Callers.{has_body, is_body_wanted, is_let_in};
ghost use Rattle.bsp_desk.specs.Reading.{token_text};
ghost use Rattle.bsp_routes.specs.Calls.{asking_text, map_call};

use crate::caller::{known_agent, known_airline};
use crate::desk::Desk;
use crate::token::is_token_of;
use bsp_book::{Book, BookFault};
use bsp_routes::{Asking, BodyKind, Call};
use bsp_rows::Token;

/// Whether a call has a body.
fn has_body(kind: BodyKind) -> bool
    ensures { result ≡ has_body kind }
{
    match kind {
        BodyKind::NoBody => false,
        BodyKind::Ret | BodyKind::PlanText | BodyKind::Json => true,
    }
}

/// Whether the caller of a call is let in.
fn is_let_in<B: Book>(
    book: &mut B,
    office: &Token,
    token: Option<&[u8]>,
    call: &Call<&[u8]>,
) -> Result<bool, BookFault>
    requires { B.means.has_failed book.old ≡ false }
    ensures { LooksUp B.means book.old book.new result (λ found. found) (is_let_in office.now (token_text token.entry) (map_call (λ value. value.now) call.now)) }
{
    match call {
        Call::Office(_) => Ok(is_token_of(office, token)),
        Call::Agent(code, _) => Ok(known_agent(book, token, code)?.is_some()),
        Call::Airline(code, _) => Ok(known_airline(book, token, code)?.is_some()),
    }
}

impl<B: Book> Desk<B> {
    /// Whether the body of a request is wanted, before it comes: its call has one, and the caller is let in. The rows stay
    /// as they are.
    ///
    /// # Errors
    ///
    /// `NoRoom` where there was no memory to look that up. `Failed` where the book has failed.
    pub fn wants_body(
        &mut self,
        token: Option<&[u8]>,
        asking: Asking<&[u8]>,
    ) -> Result<bool, BookFault>
        ensures wanted { LooksUp B.means self.old.book self.new.book result (λ found. found) (is_body_wanted self.old.office (token_text token.entry) (asking_text asking.entry)) }
        ensures office { self.new.office ≡ self.old.office }
    {
        if self.book.has_failed() {
            return Err(BookFault::Failed);
        }
        match asking {
            Asking::Call(call) if has_body(call.body_kind()) => {
                is_let_in(&mut self.book, &self.office, token, &call)
            }
            _ => Ok(false),
        }
    }
}
