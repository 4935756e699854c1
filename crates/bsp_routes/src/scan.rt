//! Finding the end of a head in bytes that come in pieces.
ghost use Rattle.std.specs.Prelude.{◌≡◌, ◌≤◌, IfSome, ℕ, ◌+◌, List, [], ◌++◌, length, None, ◌&&◌, ◌||◌, not, nat_lt};
ghost use Rattle.std.specs.Option.{option_map};
ghost use Rattle.bsp_routes.specs.Scan.{HasScanned, after_bytes, head_len_from};

use memchr::memchr_iter;

/// A search for the end of a head, between two pieces of its text.
///
/// A line ends by LF or CR LF (RFC 9112, 2.2). Empty lines before the request line belong to the head, which
/// ends with the first empty line after it.
#[derive(Clone, Copy)]
pub struct Scan {
    /// Whether a line that is not empty has ended.
    seen: bool,
    /// What the line that has begun has: 0 nothing, 1 one CR, 2 more.
    line: u8,
}

/// What a line has after more of its bytes, none of which is its LF.
fn after_bytes(line: u8, bytes: &[u8]) -> u8
    ensures { result ≡ after_bytes line bytes.now }
{
    match bytes {
        [] => line,
        [b'\r'] if line == 0 => 1,
        _ => 2,
    }
}

impl Scan {
    /// A search that has seen no byte.
    pub fn start() -> Scan
        ensures { HasScanned [] result }
    {
        Scan {
            seen: false,
            line: 0,
        }
    }

    /// Goes over the LF of a line that had this before it, and answers whether the head ends there.
    fn end_line(&mut self, line: u8) -> bool
        ensures ends { result ≡ (self.old.seen && nat_lt line 2) }
        ensures seen { self.new.seen ≡ (self.old.seen || not (nat_lt line 2)) }
        ensures line { self.new.line ≡ 0 }
    {
        let is_empty = line < 2;
        let ends = self.seen && is_empty;
        self.seen = self.seen || !is_empty;
        self.line = 0;
        ends
    }

    /// Goes over the next bytes, and answers how many of them the head takes where it ends in them.
    ///
    /// After an answer the search is one that has seen no byte.
    pub fn go_on(&mut self, bytes: &[u8]) -> Option<usize>
        ensures found { result ≡ head_len_from self.old.seen self.old.line bytes.now }
        ensures within { IfSome result (λ n. n ≤ length bytes.now) }
        ensures anew { IfSome result (λ n. HasScanned [] self.new) }
        ensures left { result ≡ None → (more : List ℕ)
            → head_len_from self.old.seen self.old.line (bytes.now ++ more) ≡ option_map (λ n. length bytes.now + n) (head_len_from self.new.seen self.new.line more) }
    {
        let mut start = 0;
        for end in memchr_iter(b'\n', bytes) {
            let line = after_bytes(self.line, &bytes[start..end]);
            start = end + 1;
            if self.end_line(line) {
                *self = Scan::start();
                return Some(start);
            }
        }
        self.line = after_bytes(self.line, &bytes[start..]);
        None
    }
}
