//! The two forms of HOT files.

ghost use Rattle.std.specs.Prelude.{◌≡◌, Some};
ghost use Rattle.bsp_hot_records.specs.Records.{file_form_of, file_form_text};

/// The form of a HOT file. It decides which columns a record of the file has.
#[derive(Clone, Copy, PartialEq, Eq)]
pub enum FileForm {
    /// Form 1, without tax on commission.
    One,
    /// Form 2, with tax on commission: BKS42 after BKS39, and the tax after the net of totals.
    Two,
}

impl FileForm {
    /// The form of a file whose BFH01 has this text in columns 31 to 37.
    #[tactic(auto, unfolding(crate::specs::Records::file_form_of))]
    pub fn of(text: &[u8]) -> Option<FileForm>
        ensures { result ≡ file_form_of text.now }
    {
        if text == b"PROD001".as_slice() {
            Some(FileForm::One)
        } else if text == b"PROD002".as_slice() {
            Some(FileForm::Two)
        } else {
            None
        }
    }

    /// What BFH01 has in columns 31 to 37: `PROD`, and the form in three digits.
    #[tactic(auto, unfolding(crate::specs::Records::file_form_of))]
    pub fn text(self) -> [u8; 7]
        ensures text { result ≡ file_form_text self }
        // The text is of this form alone.
        ensures read { file_form_of (file_form_text self) ≡ Some self }
    {
        match self {
            FileForm::One => *b"PROD001",
            FileForm::Two => *b"PROD002",
        }
    }
}
