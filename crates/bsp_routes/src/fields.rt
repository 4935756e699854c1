//! The fields of a head, found by their names (RFC 9110, section 5).
ghost use Rattle.std.specs.Prelude.{◌≡◌, ℕ, List, [], ◌∷◌, ◌++◌, length, map, All};
ghost use Rattle.httparse.specs.Spans.{header_bytes, IsHeaderWithin};
ghost use Rattle.bsp_routes.specs.Fields.{Header, values, is_close, is_expect};
ghost use Rattle.bsp_routes.specs.Found.{AreFields, IsFound};

use crate::elements::{has_element, is_same};
use crate::named::Found;
use httparse::spans::HeaderSpan;

/// What is kept of the fields of a head.
#[derive(Clone, Copy)]
pub(crate) struct Fields {
    /// Those named `Host`.
    pub(crate) hosts: Found,
    /// Those named `Transfer-Encoding`.
    pub(crate) codings: Found,
    /// Those named `Content-Length`.
    pub(crate) lengths: Found,
    /// Those named `Bsp-Token`.
    pub(crate) tokens: Found,
    /// Whether a `Connection` field has the element `close` (RFC 9112, 9.6).
    pub(crate) closes: bool,
    /// Whether an `Expect` field has the value `100-continue` (RFC 9110, 10.1.1).
    pub(crate) expects: bool,
}

/// The fields of that name, in any letter case, where one more field comes.
fn and_named(found: Found, text: &[u8], header: &HeaderSpan, name: &[u8]) -> Found
    requires { IsHeaderWithin (length text.now) header.now }
    ensures { (before : List Header) → IsFound text.now (values name.now before) found
        → IsFound text.now (values name.now (before ++ header_bytes text.now header.now ∷ [])) result }
{
    if is_same(header.name.of(text), name) {
        found.and(header.value)
    } else {
        found
    }
}

fn is_close(text: &[u8], header: &HeaderSpan) -> bool
    requires { IsHeaderWithin (length text.now) header.now }
    ensures { result ≡ is_close (header_bytes text.now header.now) }
{
    is_same(header.name.of(text), b"connection") && has_element(header.value.of(text), b"close")
}

fn is_expect(text: &[u8], header: &HeaderSpan) -> bool
    requires { IsHeaderWithin (length text.now) header.now }
    ensures { result ≡ is_expect (header_bytes text.now header.now) }
{
    is_same(header.name.of(text), b"expect") && is_same(header.value.of(text), b"100-continue")
}

impl Fields {
    fn none() -> Fields
        ensures { (text : List ℕ) → AreFields text [] result }
    {
        Fields {
            hosts: Found::Nothing,
            codings: Found::Nothing,
            lengths: Found::Nothing,
            tokens: Found::Nothing,
            closes: false,
            expects: false,
        }
    }

    /// Adds a field. Only a name of the same length is compared.
    fn add(&mut self, text: &[u8], header: &HeaderSpan)
        requires { IsHeaderWithin (length text.now) header.now }
        ensures { (before : List Header) → AreFields text.now before self.old → AreFields text.now (before ++ header_bytes text.now header.now ∷ []) self.new }
    {
        match header.name.of(text).len() {
            4 => self.hosts = and_named(self.hosts, text, header, b"host"),
            6 => self.expects |= is_expect(text, header),
            9 => self.tokens = and_named(self.tokens, text, header, b"bsp-token"),
            10 => self.closes |= is_close(text, header),
            14 => self.lengths = and_named(self.lengths, text, header, b"content-length"),
            17 => self.codings = and_named(self.codings, text, header, b"transfer-encoding"),
            _ => {}
        }
    }

    /// What is kept of these fields.
    pub(crate) fn of(text: &[u8], headers: &[HeaderSpan]) -> Fields
        requires { All (IsHeaderWithin (length text.now)) headers.now }
        ensures { AreFields text.now (map (header_bytes text.now) headers.now) result }
    {
        let mut fields = Fields::none();
        for header in headers {
            fields.add(text, header);
        }
        fields
    }
}
