//! Why a line has another width, or another character, than a record may have.

use crate::words::Words;

/// Why a line may have another width, or another character, than it shows. It is for people.
#[derive(Clone, Copy)]
pub enum Cause {
    /// Nothing is known of it.
    Unknown,
    /// The text begins with the byte order mark of UTF-8, which an editor wrote.
    Mark,
    /// The text is in UTF-16.
    Utf16,
    /// It has a character of UTF-8 that is two bytes or more.
    Wide,
    /// It has a letter with an accent in one byte.
    Accent,
    /// It has a tab.
    Tab,
    /// It has a CR that no LF follows.
    Return,
    /// It is as long as two records or more.
    Joined,
}

impl Cause {
    /// What people read of it, after the fault.
    pub fn text(self) -> &'static str {
        match self {
            Cause::Unknown => "",
            Cause::Mark => ": it begins with a byte order mark; save it without one",
            Cause::Utf16 => ": the file is in UTF-16; save it as plain text (ASCII)",
            Cause::Wide =>
                ": it has a letter with an accent, or another character of two bytes or more; write letters from A to Z alone",
            Cause::Accent =>
                ": it has a letter with an accent, or another of one byte; write letters from A to Z alone",
            Cause::Tab => ": it has a tab; write spaces in its place",
            Cause::Return => ": the lines end by CR alone; end each by LF or CR LF",
            Cause::Joined =>
                ": several records are in one line; end each by LF, and send it with `--data-binary`",
        }
    }
}

/// Whether two bytes begin a character of UTF-8.
fn begins_wide(pair: &[u8]) -> bool {
    pair.len() == 2 && pair[0] >= 0xc2 && (0x80..0xc0).contains(&pair[1])
}

/// Whether a text begins as UTF-16 does: by its mark, or by two characters of which each has one byte 0.
fn begins_utf16(head: &[u8]) -> bool {
    let marked = head.starts_with(b"\xff\xfe") || head.starts_with(b"\xfe\xff");
    marked || head.len() >= 4 && (head[0] == 0 && head[2] == 0) != (head[1] == 0 && head[3] == 0)
}

/// Why a text may be no record that is neither in UTF-8 nor in UTF-16.
fn cause_in(head: &[u8]) -> Cause {
    if head.contains(&b'\t') {
        Cause::Tab
    } else if head.contains(&b'\r') {
        Cause::Return
    } else if head.iter().any(|byte| *byte >= 0xa0) {
        Cause::Accent
    } else if head.len() >= 272 && head.iter().all(|byte| *byte >= b' ') {
        Cause::Joined
    } else {
        Cause::Unknown
    }
}

/// Why a line may be no record, as far as its first bytes show it.
pub fn cause_of(line: &[u8]) -> Cause {
    let head = &line[..line.len().min(1024)];
    if head.starts_with(b"\xef\xbb\xbf") {
        Cause::Mark
    } else if begins_utf16(head) {
        Cause::Utf16
    } else if head.windows(2).any(|pair| begins_wide(pair)) {
        Cause::Wide
    } else {
        cause_in(head)
    }
}

/// What people read of a line of that width, where nothing else is known of it.
fn width_text(width: usize) -> &'static str {
    if width <= 100 {
        "too few: fill it with spaces up to 136 characters"
    } else if width < 136 {
        "too few: a field is too short, or spaces at its end are missing"
    } else {
        "too many: a field is too long"
    }
}

/// Says that a line has that width, which is not 136.
pub fn say_width(words: &mut Words, width: usize, cause: Cause) {
    if width == 0 {
        words.add("it is an empty line: remove it");
        return;
    }
    words.add("it has ");
    words.show(width);
    match cause {
        Cause::Unknown | Cause::Accent => {
            words.add(" characters, ");
            words.show(width.abs_diff(136));
            words.add_all(&[" ", width_text(width)]);
        }
        _ => words.add_all(&[" characters, and not 136", cause.text()]),
    }
}
