//! The form that a field has to have.

ghost use Rattle.std.specs.Prelude.{◌≡◌, length, true};
ghost use Rattle.bsp_explain.specs.Fields.{fits, is_document_code, is_file_form, is_form_of_payment, is_transaction_code, takes_width};

use bsp_fault_texts::Words;
use bsp_fields::{
    all_digits, all_letters, all_letters_or_digits, all_spaces, is_amount, is_record_day, is_total,
    spells_at_most, tax_code,
};

/// The form that the characters of a field have to have.
#[derive(Clone, Copy)]
pub enum Form {
    /// `1`, the identifier of a header.
    HeaderMark,
    /// `001` or `002`, the profile of a RET file.
    Profile,
    /// `PROD`, of a file that is no test.
    Production,
    /// `PROD001` or `PROD002`, of a HOT file of form 1 or 2.
    ProductionProfile,
    /// Letters from A to Z.
    Letters,
    /// Digits, and letters from A to Z.
    LettersOrDigits,
    /// Digits.
    Digits,
    /// Digits that write this number or less.
    AtMost(u16),
    /// A day YYMMDD of the years 2000 to 2099.
    Day,
    /// An amount, a signed zoned decimal of 11 characters.
    Amount,
    /// A total, a signed zoned decimal of 15 characters.
    Total,
    /// TKTT, RFND or CANX.
    TransactionCode,
    /// TKTT, RFND, CANX, ADMA or ACMA.
    DocumentCode,
    /// CA, CC or EX.
    FormOfPayment,
    /// Two characters that as a number are above this one: a tax code above the one before it.
    Above(u16),
    /// Spaces.
    Spaces,
    /// Spaces, in a tax place after an unused one.
    Unused,
}

/// Whether a text is the code of a transaction.
fn is_transaction_code(text: &[u8]) -> bool
    ensures { result ≡ is_transaction_code text.now }
{
    text == b"TKTT".as_slice() || text == b"RFND".as_slice() || text == b"CANX".as_slice()
}

/// Whether a text is the code of a document or of a memo.
fn is_document_code(text: &[u8]) -> bool
    ensures { result ≡ is_document_code text.now }
{
    is_transaction_code(text) || text == b"ADMA".as_slice() || text == b"ACMA".as_slice()
}

/// Whether a text is what BFH01 has of a HOT file's form.
fn is_file_form(text: &[u8]) -> bool
    ensures { result ≡ is_file_form text.now }
{
    text == b"PROD001".as_slice() || text == b"PROD002".as_slice()
}

/// Whether a text is a form of payment.
fn is_form_of_payment(text: &[u8]) -> bool
    ensures { result ≡ is_form_of_payment text.now }
{
    matches!(text, b"CA" | b"CC" | b"EX")
}

impl Form {
    /// Whether a text is in the form.
    #[tactic(auto, unfolding(crate::specs::Fields::fits))]
    pub(crate) fn fits(self, text: &[u8]) -> bool
        requires { takes_width self (length text.now) ≡ true }
        ensures { result ≡ fits self text.now }
    {
        match self {
            Form::HeaderMark => text == b"1".as_slice(),
            Form::Profile => matches!(text, b"001" | b"002"),
            Form::Production => text == b"PROD".as_slice(),
            Form::ProductionProfile => is_file_form(text),
            Form::Letters => all_letters(text),
            Form::LettersOrDigits => all_letters_or_digits(text),
            Form::Digits => all_digits(text),
            Form::AtMost(most) => spells_at_most(most as u64, text),
            Form::Day => is_record_day(text),
            Form::Amount => is_amount(text),
            Form::Total => is_total(text),
            Form::TransactionCode => is_transaction_code(text),
            Form::DocumentCode => is_document_code(text),
            Form::FormOfPayment => is_form_of_payment(text),
            Form::Above(before) => before < tax_code(text),
            Form::Spaces | Form::Unused => all_spaces(text),
        }
    }

    /// What is wrong with a field that is not in the form, without the number that it is up to.
    fn text(self) -> &'static str {
        match self {
            Form::HeaderMark =>
                "is not `1`: a file begins with its header, as `1TSTA2401050930DE000001PROD001` and 106 spaces: put it before this line",
            Form::Profile => "is neither `001` nor `002`",
            Form::Production => "is not `PROD`",
            Form::ProductionProfile => "is not `PROD001` or `PROD002`",
            Form::Letters => "has a character that is not a letter from A to Z",
            Form::LettersOrDigits =>
                "has a character that is neither a digit nor a letter from A to Z",
            Form::Digits => "has a character that is not a digit",
            Form::AtMost(_) => "is not a number in digits up to",
            Form::Day =>
                "is not a day YYMMDD of the years 2000 to 2099: 5 January 2024 is `240105`",
            Form::Amount =>
                "is not ten digits and a last character with digit and sign: 200.00 is `0000002000{`, and -200.00 is `0000002000}`",
            Form::Total =>
                "is not 14 digits and a last character with digit and sign: 200.00 is `00000000002000{`, and -200.00 is `00000000002000}`",
            Form::TransactionCode => "is not TKTT (sale), RFND (refund) or CANX (cancellation)",
            Form::DocumentCode => "is not TKTT, RFND, CANX, ADMA or ACMA",
            Form::FormOfPayment => "is not CA (cash), CC (card) or EX (exchange)",
            Form::Above(_) =>
                "has a code that does not come after the one before it: codes rise, and each comes once",
            Form::Spaces => "has a character that is not a space",
            Form::Unused =>
                "is used after an unused one: used places come first, and an unused one is 13 spaces",
        }
    }

    /// Says what is wrong with a field that is not in the form.
    pub(crate) fn say(self, words: &mut Words) {
        words.add(self.text());
        if let Form::AtMost(most) = self {
            words.add(" ");
            words.show(most);
            words.add(if most == 10_000 {
                ": 5.00 percent is `00500`"
            } else {
                ""
            });
        }
    }
}
