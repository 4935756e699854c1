//! What is wrong with a record of a HOT file.

use crate::comparison::{Comparison, Value, say_bytes};
use crate::kind::Kind;
use crate::next::Expected;
use bsp_explain::{Cause, Name, Reason, Words};
use bsp_fields::{all_digits, write_digits};
use bsp_hot_check::DocumentKey;
use bsp_hot_records::{AgentDigits, DocumentCode};

/// What to do with a file that was damaged: an airline writes none itself.
const DAMAGED: &str = ": fetch the file again; if it stays so, ask the office";

/// Why a line has fewer characters than a record. It is for people.
#[derive(Clone, Copy)]
pub enum Shortness {
    /// The text ends in the line.
    Cut,
    /// The line begins as a record does.
    Trimmed,
}

/// What does not come after what. It is for people.
#[derive(Clone, Copy)]
pub enum Disorder {
    /// Nothing is known of it.
    Unknown,
    /// The agent of an office, and that of the office before.
    Agents(AgentDigits, AgentDigits),
    /// A document, and the one before it in its office.
    Documents(DocumentKey, DocumentKey),
}

/// What is wrong with a record of a HOT file. It is said without its columns.
#[derive(Clone, Copy)]
pub enum HotReason {
    /// Its width, a character or a field.
    Form(Reason),
    /// It has fewer characters than a record.
    Short {
        /// How many it has.
        width: usize,
        /// Why.
        shortness: Shortness,
    },
    /// The text does not begin as a HOT file, and seems to be this.
    Foreign(Kind),
    /// The sequence number is not that of the record.
    Sequence {
        /// What the record has in columns 4 to 11.
        stated: [u8; 8],
        /// The number of the record.
        next: usize,
    },
    /// No record has its digits.
    NameDigits,
    /// The letters are not those of the name with its digits.
    NameLetters,
    /// It may not come here.
    Place(Expected),
    /// What some columns say differs from what the records before it give.
    Differs(Comparison),
    /// It does not come after the one before it, by its agent or its document.
    Order(Disorder),
    /// The file ends before it.
    Missing(Expected),
    /// It has no such fault.
    NotFound,
}

impl HotReason {
    /// The first and the last column at fault, counted from 1, where it is not the whole record.
    pub(crate) fn columns(self) -> Option<(u8, u8)> {
        match self {
            HotReason::Form(reason) => reason.columns(),
            HotReason::Sequence { .. } => Some((4, 11)),
            HotReason::NameDigits => Some((12, 13)),
            HotReason::NameLetters => Some((1, 3)),
            HotReason::Differs(comparison) => Some((comparison.first, comparison.last)),
            HotReason::Order(Disorder::Agents(_, _)) => Some((14, 21)),
            HotReason::Order(_) => Some((28, 37)),
            _ => None,
        }
    }

    /// What to do, where it may be a fault of a HOT file that was damaged. Of another text it is said what
    /// to do.
    fn to_do(self) -> &'static str {
        match self {
            HotReason::Foreign(kind) if !kind.is_damage() => "",
            HotReason::NotFound => "",
            _ => DAMAGED,
        }
    }
}

/// What is said before a value that a record says.
fn before(name: Name) -> &'static str {
    match name {
        Name::Documents | Name::Offices | Name::RecordCount => "it counts ",
        Name::Cash => "CA is ",
        Name::Credit => "CC is ",
        Name::Commission => "the commission is ",
        Name::CommissionTax => "the tax on commission is ",
        Name::Net => "the net is ",
        Name::Airline => "the airline is ",
        Name::Period => "the period is ",
        Name::Currency => "the currency is ",
        Name::Agent => "the agent is ",
        Name::TransactionNumber => "the transaction number is ",
        _ => "the code is ",
    }
}

/// What a count counts, of one and of others. Nothing where the value is no count.
fn counted(name: Name, stated: Value) -> &'static str {
    match (name, stated) {
        (Name::Documents, Value::Count(1)) => " document",
        (Name::Documents, _) => " documents",
        (Name::Offices, Value::Count(1)) => " agent",
        (Name::Offices, _) => " agents",
        (Name::RecordCount, Value::Count(1)) => " record",
        (Name::RecordCount, _) => " records",
        _ => "",
    }
}

/// What comes between a value that a record says, and the one that it has to be.
fn between(stated: Value) -> &'static str {
    match stated {
        Value::Count(_) => ", and there ",
        Value::Amount(_) => ", and the items",
        Value::Code(_) => ", and BOT93 of ",
        Value::Transaction(_) => ", and not ",
        Value::Agent(_) => ", and that of its BOH03 ",
        _ => ", and that of the file ",
    }
}

/// What comes further before the value that it has to be: of a count, and of a total of these items.
fn giving(given: Value, items: Option<DocumentCode>) -> &'static str {
    match (given, items) {
        (Value::Count(1), _) => "is ",
        (Value::Count(_), _) => "are ",
        (Value::Amount(_), None) => " give ",
        (Value::Amount(_), Some(DocumentCode::Tktt)) => " of TKTT give ",
        (Value::Amount(_), Some(DocumentCode::Rfnd)) => " of RFND give ",
        (Value::Amount(_), Some(DocumentCode::Canx)) => " of CANX give ",
        (Value::Amount(_), Some(DocumentCode::Adma)) => " of ADMA give ",
        (Value::Amount(_), Some(DocumentCode::Acma)) => " of ACMA give ",
        _ => "",
    }
}

/// What comes after the value that it has to be.
fn after(stated: Value) -> &'static str {
    match stated {
        Value::Code(_) => " comes here",
        _ => "",
    }
}

/// Says which column differs, and both values.
fn say_difference(words: &mut Words, comparison: &Comparison) {
    let (name, stated, given) = (comparison.name, comparison.stated, comparison.given);
    let (noun, end) = (counted(name, stated), after(stated));
    let (middle, further) = (between(stated), giving(given, comparison.items));
    words.add(before(name));
    stated.say(words);
    words.add_all(&[noun, middle, further]);
    given.say(words);
    words.add(end);
}

/// Says a document.
fn say_document(words: &mut Words, document: DocumentKey) {
    say_bytes(words, &document.code.text());
    words.add(" ");
    words.show(document.number);
}

/// Says what does not come after what.
fn say_disorder(words: &mut Words, disorder: Disorder) {
    let text = " does not come after ";
    match disorder {
        Disorder::Unknown => words.add("it does not come after the one before it"),
        Disorder::Agents(agent, before) => {
            words.add("the agent ");
            Value::Agent(agent).say(words);
            words.add(text);
            Value::Agent(before).say(words);
        }
        Disorder::Documents(document, before) => {
            say_document(words, document);
            words.add(text);
            say_document(words, before);
        }
    }
}

/// Why a record with those eight digits is where this number comes next.
fn sequence_cause(stated: &[u8], next: usize) -> &'static str {
    if stated > write_digits::<8>(next as u64).as_slice() {
        "a record is missing before it"
    } else {
        "a record is there twice"
    }
}

/// Says that a sequence number is another one.
fn say_sequence(words: &mut Words, stated: &[u8], next: usize) {
    words.add("the sequence number is ");
    if all_digits(stated) {
        say_bytes(words, stated);
        words.add(", and ");
    }
    words.add("not ");
    words.show_padded(next, 8);
    if all_digits(stated) {
        words.add_all(&[": ", sequence_cause(stated, next)]);
    }
}

/// What people read of a line of another width, or with another character, that they did not write.
fn cause_text(cause: Cause) -> &'static str {
    match cause {
        Cause::Unknown => "",
        Cause::Mark => ": it begins with a byte order mark",
        Cause::Utf16 => ": the file is in UTF-16",
        Cause::Wide | Cause::Accent => ": it has a letter with an accent",
        Cause::Tab => ": it has a tab",
        Cause::Return => ": the lines end by CR alone",
        Cause::Joined => ": several records are in one line",
    }
}

/// Says what is wrong with the form of a line that people did not write.
fn say_form(words: &mut Words, reason: Reason) {
    match reason {
        Reason::Width { width: 0, .. } => words.add("it is an empty line"),
        Reason::Width { width, cause } => {
            words.add("it has ");
            words.show(width);
            words.add_all(&[" characters, and not 136", cause_text(cause)]);
        }
        Reason::Character {
            character,
            cause,
            ..
        } => {
            words.add("the character ");
            words.show_byte(character);
            words.add_all(&[" is outside 0x20 to 0x7e", cause_text(cause)]);
        }
        _ => reason.say(words),
    }
}

/// Says why a line has fewer characters than a record.
fn say_shortness(words: &mut Words, width: usize, shortness: Shortness) {
    let (start, end) = match shortness {
        Shortness::Cut => ("the file ends in it, after ", " of 136 characters"),
        Shortness::Trimmed => (
            "it has ",
            " characters, and not 136: spaces at its end are missing",
        ),
    };
    words.add(start);
    words.show(width);
    words.add(end);
}

impl HotReason {
    /// Says a fault that has no value.
    fn say_plain(self, words: &mut Words) {
        match self {
            HotReason::NameDigits => words.add("no record has these digits in its name"),
            HotReason::NameLetters => {
                words.add("the letters are not those of the name with these digits");
            }
            HotReason::Place(expected) => {
                words.add_all(&["it is not allowed here: ", expected.text()]);
            }
            HotReason::Missing(expected) => {
                let fault = "the file ends before its last record BFT99: ";
                words.add_all(&[fault, expected.text()]);
            }
            // (`NotFound`: `say` says the others)
            _ => words.add("the record has no such fault"),
        }
    }

    /// Says the fault, without what to do.
    fn say_fault(&self, words: &mut Words) {
        match self {
            HotReason::Form(reason) => say_form(words, *reason),
            HotReason::Short { width, shortness } => say_shortness(words, *width, *shortness),
            HotReason::Foreign(kind) => kind.say(words),
            HotReason::Sequence { stated, next } => say_sequence(words, stated, *next),
            HotReason::Differs(comparison) => say_difference(words, comparison),
            HotReason::Order(disorder) => say_disorder(words, *disorder),
            _ => self.say_plain(words),
        }
    }

    /// Says the fault, and what to do.
    pub(crate) fn say(&self, words: &mut Words) {
        self.say_fault(words);
        words.add(self.to_do());
    }
}
