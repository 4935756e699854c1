//! Record 1, the header.

ghost use Rattle.std.specs.Prelude.{◌≡◌, length};
ghost use Rattle.bsp_ret_records.specs.Records.{profile_of, is_header, is_production, header_fits};

use crate::codes::Profile;
use bsp_fields::{
    all_digits, all_letters, all_letters_or_digits, all_spaces, is_record_day, spells_at_most,
};

/// The profile of a record, where it is one that a header may have.
#[tactic(auto, unfolding(crate::specs::Records::profile_of))]
pub fn profile_of(line: &[u8]) -> Option<Profile>
    requires { length line.now ≡ 136 }
    ensures { result ≡ profile_of line.now }
{
    match &line[27..30] {
        b"001" => Some(Profile::P001),
        b"002" => Some(Profile::P002),
        _ => None,
    }
}

/// Whether a record is a header of profile 001 or 002.
#[tactic(auto, unfolding(crate::specs::Records::is_header))]
pub fn is_header(line: &[u8]) -> bool
    requires { length line.now ≡ 136 }
    ensures { result ≡ is_header line.now }
{
    line[0] == b'1' && profile_of(line).is_some()
}

/// Whether a header says that the file is no test.
#[tactic(auto, unfolding(crate::specs::Records::is_production))]
pub fn is_production(line: &[u8]) -> bool
    requires { length line.now ≡ 136 }
    ensures { result ≡ is_production line.now }
{
    &line[23..27] == b"PROD".as_slice()
}

/// Whether the other fields of a header fit: system id, date, hours, minutes, country, file number.
#[tactic(auto, unfolding(crate::specs::Records::header_fits))]
pub fn header_fits(line: &[u8]) -> bool
    requires { length line.now ≡ 136 }
    ensures { result ≡ header_fits line.now }
{
    all_letters_or_digits(&line[1..5])
        && is_record_day(&line[5..11])
        && spells_at_most(23, &line[11..13])
        && spells_at_most(59, &line[13..15])
        && all_letters(&line[15..17])
        && all_digits(&line[17..23])
        && all_spaces(&line[30..136])
}
