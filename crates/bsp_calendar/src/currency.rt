//! The code of a currency.

ghost use Rattle.std.specs.Prelude.{◌≡◌};
ghost use Rattle.bsp_calendar.specs.Letters.{currency_reading};

use std::marker::Model;

/// The code of a currency: three letters `A` to `Z` (ISO 4217). A contract sees it as the letters.
#[derive(Clone, Copy, PartialEq, Eq)]
pub struct Currency {
    letters: [u8; 3],
}

impl Model for Currency {
    ghost use Rattle.std.specs.Prelude.{◌≡◌, ℕ, List, length, IsTrue};
    ghost use Rattle.bsp_calendar.specs.Letters.{are_letters};

    ghost Value = { List ℕ };

    ghost view = { λ c. c.letters };

    ghost inverse = { λ letters. record { letters = letters } };

    ghost invariant = { λ c. (length c.letters ≡ 3) × IsTrue (are_letters c.letters) };
}

impl Currency {
    /// The currency of three letters `A` to `Z`, and none of another text.
    pub fn read(text: &[u8]) -> Option<Currency>
        ensures { result ≡ currency_reading text.now }
    {
        let letters = <[u8; 3]>::try_from(text).ok()?;
        if letters.iter().all(|letter| letter.is_ascii_uppercase()) {
            Some(Currency { letters })
        } else {
            None
        }
    }

    /// The three letters.
    pub fn letters(self) -> [u8; 3]
        ensures text { result ≡ self }
        ensures reads_back { currency_reading result ≡ Some self }
    {
        self.letters
    }
}
