//! The reason of a memo.

ghost use Rattle.std.specs.Prelude.{◌≡◌};
ghost use Rattle.std.specs.Int.{is_in_range};
ghost use Rattle.std.specs.List.{list_all};
ghost use Rattle.bsp_memos.specs.Reasons.{reason_reading};

use std::marker::Model;
use std::str;

/// The reason of a memo: 1 to 40 characters from 0x20 to 0x7E. A contract sees it as the characters.
#[derive(Clone, Copy, PartialEq, Eq)]
pub struct Reason {
    // filled with spaces behind the characters of the reason
    characters: [u8; 40],
    count: usize,
}

impl Model for Reason {
    ghost use Rattle.std.specs.Prelude.{ℕ, List, take, ◌++◌, ◌-◌, length, replicate};
    ghost use Rattle.std.proofs.Common.{ap};
    ghost use Rattle.bsp_memos.specs.Reasons.{IsFilled, given_back};

    ghost Value = { List ℕ };

    ghost view = { λ reason. take reason.count reason.characters };

    ghost inverse = { λ text. record { characters = text ++ replicate (40 - length text) 32; count = length text } };

    ghost invariant = { λ reason. IsFilled reason.count reason.characters };

    ghost inverse_ok = { λ reason filled. ap (λ (p : List ℕ × ℕ). record { characters = p.0; count = p.1 }) (given_back reason.count reason.characters filled) };
}

/// Whether each character is from 0x20 to 0x7E.
fn is_printable(text: &[u8]) -> bool
    ensures { result ≡ list_all (is_in_range 32 126) text.now }
{
    text.iter().all(|b| b' ' <= *b && *b <= b'~')
}

impl Reason {
    /// The reason of 1 to 40 characters from 0x20 to 0x7E, and none of another text.
    pub fn read(text: &[u8]) -> Option<Reason>
        ensures { result ≡ reason_reading text.now }
    {
        let count = text.len();
        if count < 1 || count > 40 || !is_printable(text) {
            return None;
        }
        let mut characters = [b' '; 40];
        characters[..count].copy_from_slice(text);
        Some(Reason { characters, count })
    }

    /// The characters.
    pub fn as_str(&self) -> &str
        ensures text { result.now ≡ self.now }
        ensures reads_back { reason_reading result.now ≡ Some self.now }
    {
        let Ok(text) = str::from_utf8(&self.characters[..self.count]) else {
            unreachable!()
        };
        text
    }
}
