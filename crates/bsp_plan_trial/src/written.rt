//! What is written in the lines of a plan text.

/// A table of a plan text.
#[derive(Clone, Copy)]
pub(crate) struct Place<'n> {
    /// The name of its list, and none of the text itself.
    pub(crate) list: &'n str,
    /// Its place in the list, from 0.
    pub(crate) entry: usize,
}

/// The table of the text itself.
pub(crate) const TOP: Place<'static> = Place { list: "", entry: 0 };

/// What comes before the first character of this kind, without spaces around it.
fn before(text: &str, end: char) -> &str {
    match text.split_once(end) {
        Some((start, _)) => start.trim_ascii(),
        None => text.trim_ascii(),
    }
}

/// The name in the brackets of a line.
pub(crate) fn header(line: &str) -> Option<&str> {
    let rest = line.trim_ascii().strip_prefix('[')?;
    match rest.strip_prefix('[') {
        Some(rest) => Some(before(rest, ']')),
        None => Some(before(rest, ']')),
    }
}

/// A value without the comment that follows it.
fn without_comment(value: &str) -> &str {
    let Some(rest) = value.strip_prefix('"') else {
        return before(value, '#');
    };
    match rest.split_once('"') {
        Some((text, _)) => value.get(..text.len().saturating_add(2)).unwrap_or(value),
        None => value,
    }
}

/// The key of a line.
pub(crate) fn key(line: &str) -> &str {
    before(line, '=')
}

/// The value in a line, after its key.
pub(crate) fn value(line: &str) -> Option<&str> {
    match line.split_once('=') {
        Some((_, value)) => Some(without_comment(value.trim_ascii())),
        None => None,
    }
}

/// What is written at a key of a table, where a line of its own has it.
pub(crate) fn find_written<'t>(text: &'t str, place: Place<'_>, name: &str) -> Option<&'t str> {
    let mut seen = 0_usize;
    let mut is_here = place.list.is_empty();
    for line in text.split('\n') {
        if let Some(list) = header(line) {
            let is_of_the_list = list == place.list;
            is_here = is_of_the_list && seen == place.entry;
            seen = seen.saturating_add(usize::from(is_of_the_list));
        } else if is_here && key(line) == name {
            if let Some(found) = value(line) {
                return Some(found);
            }
        }
    }
    None
}

/// The line of the first table that has a key, where a line of its own has it.
pub(crate) fn below_a_table(text: &str, name: &str) -> Option<usize> {
    let mut is_below = false;
    for (index, line) in text.split('\n').enumerate() {
        if header(line).is_some() {
            is_below = true;
        } else if is_below && key(line) == name {
            return Some(index.saturating_add(1));
        }
    }
    None
}

/// The line with a number, from 1.
pub(crate) fn line_of(text: &str, number: usize) -> &str {
    let index = number.saturating_sub(1);
    text.split('\n').nth(index).unwrap_or_default()
}
