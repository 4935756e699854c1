//! The token of a caller.

ghost use Rattle.std.specs.Prelude.{◌≡◌, Some};
ghost use Rattle.std.specs.Char.{is_ascii_alphanumeric};
ghost use Rattle.std.specs.List.{list_all};
ghost use Rattle.std.specs.Str.{bytes_eq};
ghost use Rattle.std.proofs.lemmas.Cmp.{nat_list_eq_equiv};
ghost use Rattle.std.specs.Cmp.{partial_equiv_from_equiv};
ghost use Rattle.bsp_fields.specs.Tokens.{token_reading};

use std::marker::Model;

/// A token by which a caller is known: 16 to 64 characters of `0`-`9`, `A`-`Z` and `a`-`z`. A
/// contract sees it as the characters. It has no `Debug`, so that none is printed by mistake.
#[derive(Clone, Copy)]
pub struct Token {
    // filled with zeros behind the characters of the token
    characters: [u8; 64],
    count: usize,
}

impl Model for Token {
    ghost use Rattle.std.specs.Prelude.{ℕ, List, take, ◌++◌, ◌-◌, length, replicate};
    ghost use Rattle.std.proofs.Common.{ap};
    ghost use Rattle.bsp_fields.specs.Tokens.{IsTokenRoom, token_given_back};

    ghost Value = { List ℕ };

    ghost view = { λ token. take token.count token.characters };

    ghost inverse = { λ text. record { characters = text ++ replicate (64 - length text) 0; count = length text } };

    ghost invariant = { λ token. IsTokenRoom token.count token.characters };

    ghost inverse_ok = { λ token room. ap (λ (p : List ℕ × ℕ). record { characters = p.0; count = p.1 }) (token_given_back token.count token.characters room) };
}

/// Whether each character is a letter `A` to `Z` or `a` to `z`, or a digit.
fn is_alphanumeric(text: &[u8]) -> bool
    ensures { result ≡ list_all is_ascii_alphanumeric text.now }
{
    text.iter()
        .all(|character| character.is_ascii_alphanumeric())
}

/// Whether the characters are the same, found by reading all of them.
fn is_same(own: &[u8; 64], other: &[u8; 64]) -> bool
    ensures { result ≡ bytes_eq own.now other.now }
{
    let mut difference = 0;
    for place in 0..64 {
        difference |= own[place] ^ other[place];
    }
    difference == 0
}

impl Token {
    /// The token of 16 to 64 letters and digits, and none of another text.
    pub fn read(text: &[u8]) -> Option<Token>
        ensures { result ≡ token_reading text.now }
    {
        let count = text.len();
        if count < 16 || count > 64 || !is_alphanumeric(text) {
            return None;
        }
        let mut characters = [0; 64];
        characters[..count].copy_from_slice(text);
        Some(Token { characters, count })
    }

    /// The characters.
    pub fn as_bytes(&self) -> &[u8]
        ensures text { result.now ≡ self.now }
        ensures reads_back { token_reading result.now ≡ Some self.now }
    {
        &self.characters[..self.count]
    }
}

/// The same characters. Two tokens of one length are compared in the same steps, wherever they differ.
impl PartialEq for Token {
    ghost eq = { λ own other. bytes_eq own other };

    ghost laws = { partial_equiv_from_equiv nat_list_eq_equiv };

    fn eq(&self, other: &Token) -> bool {
        self.count == other.count && is_same(&self.characters, &other.characters)
    }
}

impl Eq for Token {
    ghost laws = { nat_list_eq_equiv };
}
