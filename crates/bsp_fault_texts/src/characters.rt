//! Characters of a record, to be shown.

use crate::words::Words;

/// How many characters are shown at most: those of a total.
const MOST: usize = 15;

/// What a record has in some columns, for people: all of it, or where that is more than 15 characters,
/// as many from the first on that is no space.
#[derive(Clone, Copy)]
pub struct Characters {
    /// The column of the first, counted from 1.
    pub first: usize,
    /// How many there are, at most 15.
    pub count: usize,
    /// They, and spaces.
    pub bytes: [u8; 15],
}

/// How many spaces a long text begins with; a short one is shown whole.
fn skipped(text: &[u8]) -> usize {
    if text.len() > MOST {
        text.len().saturating_sub(text.trim_ascii_start().len())
    } else {
        0
    }
}

impl Characters {
    /// What a record has from one column to another, where it has them.
    pub fn between(line: &[u8], first: u8, last: u8) -> Option<Characters> {
        let start = (first as usize).saturating_sub(1);
        let text = line.get(start..last as usize)?;
        let skipped = skipped(text);
        let shown = text.get(skipped..)?;
        let count = shown.len().min(MOST);
        let mut bytes = [b' '; 15];
        bytes[..count].copy_from_slice(&shown[..count]);
        Some(Characters {
            first: start.saturating_add(skipped).saturating_add(1),
            count,
            bytes,
        })
    }

    /// The characters.
    pub fn text(&self) -> &[u8] {
        &self.bytes[..self.count.min(MOST)]
    }

    /// The characters without spaces at their end.
    pub fn trimmed(&self) -> &str {
        str::from_utf8(self.text().trim_ascii_end()).unwrap_or_default()
    }

    /// Says the characters, in `` ` ``.
    pub fn say(&self, words: &mut Words) {
        if let Ok(text) = str::from_utf8(self.text()) {
            words.add("`");
            words.add(text);
            words.add("`");
        }
    }

    /// Whether one of the characters is among these.
    pub fn has_any(&self, characters: &[u8]) -> bool {
        self.text()
            .iter()
            .any(|character| characters.contains(character))
    }
}
