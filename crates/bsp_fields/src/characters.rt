//! Kinds of characters over a whole text.

ghost use Rattle.std.specs.Prelude.{◌≡◌};
ghost use Rattle.std.specs.Int.{is_in_range};
ghost use Rattle.std.specs.List.{list_all};
ghost use Rattle.std.specs.Str.{all_ascii_digits};
ghost use Rattle.bsp_fields.specs.Columns.{is_letter, is_letter_or_digit, is_space, is_printable};

/// Whether each character lies from one to another. It looks at all of them, which lets the
/// compiler test many at once.
#[inline]
fn all_in_range(text: &[u8], from: u8, to: u8) -> bool
    ensures { result ≡ list_all (is_in_range from to) text.now }
{
    let mut all = true;
    for b in text {
        all &= from <= *b && *b <= to;
    }
    all
}

/// Whether each character is a digit.
#[inline]
pub fn all_digits(text: &[u8]) -> bool
    ensures { result ≡ all_ascii_digits text.now }
{
    all_in_range(text, b'0', b'9')
}

/// Whether each character is a letter from `A` to `Z`.
#[inline]
pub fn all_letters(text: &[u8]) -> bool
    ensures { result ≡ list_all is_letter text.now }
{
    all_in_range(text, b'A', b'Z')
}

/// Whether each character is a space.
#[inline]
pub fn all_spaces(text: &[u8]) -> bool
    ensures { result ≡ list_all is_space text.now }
{
    all_in_range(text, b' ', b' ')
}

/// Whether each character lies from 0x20 to 0x7E.
#[inline]
pub fn all_printable(text: &[u8]) -> bool
    ensures { result ≡ list_all is_printable text.now }
{
    all_in_range(text, b' ', b'~')
}

/// Whether each character is a digit or a letter from `A` to `Z`.
#[inline]
pub fn all_letters_or_digits(text: &[u8]) -> bool
    ensures { result ≡ list_all is_letter_or_digit text.now }
{
    text.iter()
        .all(|b| b.is_ascii_digit() || b'A' <= *b && *b <= b'Z')
}
