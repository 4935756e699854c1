//! A request with its token.

use bsp_desk_writes::Content;
use bsp_routes::Asking;

/// A request as it comes in.
#[derive(Clone, Copy)]
pub struct Request<'r> {
    /// The token, and none where the message has none or several.
    pub token: Option<&'r [u8]>,
    /// What its method and its target ask for.
    pub call: Asking<&'r [u8]>,
    /// Its content. That of a call without a body is ignored.
    pub content: Content<'r>,
}
