//! What a text that is no HOT file seems to be.

use crate::comparison::say_bytes;
use bsp_explain::Words;
use bsp_fields::first_line;

/// What a text that is no HOT file seems to be. It is for people.
#[derive(Clone, Copy)]
pub enum Kind {
    /// A text without bytes.
    Empty,
    /// A RET file.
    Ret,
    /// A web page.
    Page,
    /// What the office says where it refuses a call: a code and what it means.
    Refusal([u8; 3]),
    /// Another text.
    Other {
        /// The first characters of its first line.
        first: [u8; 8],
        /// How many of them there are.
        count: usize,
    },
}

/// The first characters of a line, and `.` for one outside 0x20 to 0x7E.
fn shown(line: &[u8]) -> [u8; 8] {
    let mut first = *b"        ";
    for index in 0..8usize {
        if index < line.len() {
            let byte = line[index];
            first[index] = if (0x20..0x7f).contains(&byte) {
                byte
            } else {
                b'.'
            };
        }
    }
    first
}

/// The code of a refusal that the office wrote.
fn refusal_of(text: &[u8]) -> Option<[u8; 3]> {
    if text.len() < 12 || !text.starts_with(b"{\"code\":\"") {
        return None;
    }
    Some([text[9], text[10], text[11]])
}

/// Whether a line begins as the header of a RET file does.
fn is_ret_header(line: &[u8]) -> bool {
    line.len() >= 30 && line[0] == b'1' && &line[23..27] == b"PROD".as_slice()
}

/// Whether a line begins as a web page does.
fn begins_page(line: &[u8]) -> bool {
    line.len() >= 5
        && (line[..5].eq_ignore_ascii_case(b"<html") || line[..5].eq_ignore_ascii_case(b"<!doc"))
}

impl Kind {
    /// Whether the text may be a HOT file that was damaged.
    pub(crate) fn is_damage(self) -> bool {
        matches!(self, Kind::Empty | Kind::Other { .. })
    }

    /// What a text seems to be that does not begin as a HOT file.
    pub(crate) fn of(text: &[u8]) -> Kind {
        if text.is_empty() {
            return Kind::Empty;
        }
        let line = first_line(text).0;
        if is_ret_header(line) {
            return Kind::Ret;
        }
        if begins_page(line) {
            return Kind::Page;
        }
        match refusal_of(text) {
            Some(code) => Kind::Refusal(code),
            None => Kind::Other {
                first: shown(line),
                count: line.len(),
            },
        }
    }
}

/// Says that a text is a refusal with that code.
fn say_refusal(words: &mut Words, code: [u8; 3]) {
    words.add("this is no HOT file, but a refusal of the office: ");
    say_bytes(words, &code);
    if code.as_slice() == b"H02".as_slice() {
        words.add(
            ": the period is not published or not closed; ask again after the office has closed it",
        );
    }
    words.add(" (`bsp_office explain ");
    say_bytes(words, &code);
    words.add("`)");
}

/// Says how a text begins that is no HOT file.
fn say_other(words: &mut Words, first: [u8; 8], count: usize) {
    words.add("this is no HOT file: it begins with `");
    say_bytes(words, &first[..count.min(8)]);
    words.add("`, and not with BFH");
}

impl Kind {
    /// Says what the text seems to be.
    pub(crate) fn say(self, words: &mut Words) {
        match self {
            Kind::Empty => words.add("the file is empty"),
            Kind::Ret => words.add("this is no HOT file, but a RET file: `check` reads it"),
            Kind::Page => words.add(
                "this is no HOT file, but a web page that was saved in its place: check the address and fetch it again",
            ),
            Kind::Refusal(code) => say_refusal(words, code),
            Kind::Other { first, count } => say_other(words, first, count),
        }
    }
}
