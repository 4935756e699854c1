//! A day from 2000-01-01 to 2099-12-31, as `YYMMDD` and as `YYYY-MM-DD`.

ghost use Rattle.std.specs.Prelude.{IsTrue, ◌≡◌, ◌≤◌, ◌+◌, ◌+ℤ◌, ◌≤ℤ◌, ◌<◌, ◌^◌, pos, length, IfOk, MatchResult, Some};
ghost use Rattle.std.specs.Fmt.{padded};
ghost use Rattle.bsp_fields.specs.CivilDay.{CivilDay, is_day};
ghost use Rattle.bsp_fields.specs.Days.{day_number, HasNoDay, checked_day, parts_reading, record_text, record_reading, day_text, text_reading};

use crate::digits::{display_digits, read_digits, write_digits};
use crate::fault::FieldFault;
use jiff_core::civil::Date;
use std::fmt;
use std::marker::Model;

/// A day of the civil calendar, from 2000-01-01 to 2099-12-31. A contract sees it as a `CivilDay`:
/// a year, a month and a day of the month.
#[derive(Clone, Copy, PartialEq, Eq, PartialOrd, Ord)]
pub struct Day {
    year: u16,
    month: u8,
    day: u8,
}

impl Model for Day {
    ghost use Rattle.std.specs.Prelude.{IsTrue};
    ghost use Rattle.bsp_fields.specs.CivilDay.{CivilDay, is_day};

    ghost Value = { CivilDay };

    ghost view = { λ d. record { year = d.year; month = d.month; day = d.day } };

    ghost inverse = { λ d. record { year = d.year; month = d.month; day = d.day } };

    ghost invariant = { λ d. IsTrue (is_day (record { year = d.year; month = d.month; day = d.day })) };
}

/// The numbers of a year, a month and a day, or `NotDigit`.
fn read_parts(year: &[u8], month: &[u8], day: &[u8]) -> Result<(u64, u64, u64), FieldFault>
    requires year { length year.now ≤ 4 }
    requires month { length month.now ≤ 2 }
    requires day { length day.now ≤ 2 }
    ensures value { result ≡ parts_reading year.now month.now day.now }
    ensures bound { IfOk result (λ parts. parts.0 < 10 ^ 19) }
{
    let year = read_digits(year)?;
    let month = read_digits(month)?;
    let day = read_digits(day)?;
    Ok((year, month, day))
}

impl Day {
    /// The day of that year and month, or `NotDay`.
    fn new(year: u64, month: u64, day: u64) -> Result<Day, FieldFault>
        ensures { result ≡ checked_day (record { year = year; month = month; day = day }) }
    {
        if year < 2000 || year > 2099 || month > 12 || day > 31 {
            return Err(FieldFault::NotDay);
        }
        let (year, month, day) = (year as u16, month as u8, day as u8);
        match Date::new(year as i16, month as i8, day as i8) {
            Ok(_) => Ok(Day { year, month, day }),
            Err(_) => Err(FieldFault::NotDay),
        }
    }

    /// The first day, 2000-01-01.
    pub fn first() -> Day
        ensures { result ≡ record { year = 2000; month = 1; day = 1 } }
    {
        Day {
            year: 2000,
            month: 1,
            day: 1,
        }
    }

    /// The day with that number, counted from 1970-01-01, which is 0.
    ///
    /// # Errors
    ///
    /// `NotDay` where no day from 2000-01-01 to 2099-12-31 has the number.
    pub fn of_number(number: i64) -> Result<Day, FieldFault>
        ensures { MatchResult result
            (λ d. day_number d ≡ number)
            (λ fault. (fault ≡ FieldFault.NotDay) × HasNoDay number) }
    {
        let Ok(date) = Date::from_unix_epoch_day(number) else {
            return Err(FieldFault::NotDay);
        };
        let Date { year, month, day } = date;
        if year < 2000 || year > 2099 {
            return Err(FieldFault::NotDay);
        }
        let year = year as u16;
        Ok(Day { year, month, day })
    }

    /// The number of the day, counted from 1970-01-01, which is 0; the next day has the next number.
    /// The calendar has the day.
    pub fn number(self) -> i64
        ensures value { result ≡ day_number self }
        ensures from { pos 10_957 ≤ℤ result }
        ensures to { result ≤ℤ pos 47_481 }
        ensures civil { IsTrue (is_day self) }
    {
        let date = Date {
            year: self.year as i16,
            month: self.month,
            day: self.day,
        };
        date.to_unix_epoch_day() as i64
    }

    /// The number of the day that many days later, which may lie after 2099-12-31.
    pub fn plus(self, days: u32) -> i64
        ensures { result ≡ day_number self +ℤ pos days }
    {
        self.number() + days as i64
    }

    /// Reads a day of a record, YYMMDD, of the years 2000 to 2099.
    ///
    /// # Errors
    ///
    /// The first of `Width`, `NotDigit` and `NotDay` that applies.
    pub fn read_record(text: &[u8]) -> Result<Day, FieldFault>
        ensures value { result ≡ record_reading text.now }
        ensures spelled { IfOk result (λ d. record_text d ≡ text.now) }
    {
        if text.len() != 6 {
            return Err(FieldFault::Width);
        }
        let (year, month, day) = read_parts(&text[..2], &text[2..4], &text[4..6])?;
        Day::new(2000 + year, month, day)
    }

    /// Writes the day of a record, YYMMDD.
    pub fn write_record(self) -> [u8; 6]
        ensures text { result ≡ record_text self }
        ensures reads_back { record_reading result ≡ Ok self }
    {
        let [a, b] = write_digits::<2>(self.year as u64);
        let [c, d] = write_digits::<2>(self.month as u64);
        let [e, f] = write_digits::<2>(self.day as u64);
        [a, b, c, d, e, f]
    }

    /// Reads a day of a text, YYYY-MM-DD (the calendar date of ISO 8601).
    ///
    /// # Errors
    ///
    /// The first of `Width`, `NotDigit` (of the eight digits) and `NotDay` that applies; a separator
    /// other than `-` is `NotDay`.
    pub fn read_text(text: &[u8]) -> Result<Day, FieldFault>
        ensures value { result ≡ text_reading text.now }
        ensures spelled { IfOk result (λ d. day_text d ≡ text.now) }
    {
        if text.len() != 10 {
            return Err(FieldFault::Width);
        }
        let (year, month, day) = read_parts(&text[..4], &text[5..7], &text[8..10])?;
        if text[4] != b'-' || text[7] != b'-' {
            return Err(FieldFault::NotDay);
        }
        Day::new(year, month, day)
    }

    /// Writes the day as a text, YYYY-MM-DD (the calendar date of ISO 8601).
    pub fn write_text(self) -> [u8; 10]
        ensures text { result ≡ day_text self }
        ensures reads_back { text_reading result ≡ Ok self }
    {
        let [a, b, c, d] = write_digits::<4>(self.year as u64);
        let [e, f] = write_digits::<2>(self.month as u64);
        let [g, h] = write_digits::<2>(self.day as u64);
        [a, b, c, d, b'-', e, f, b'-', g, h]
    }
}

/// YYYY-MM-DD, in the width that the format asks for.
impl fmt::Display for Day {
    ghost output = { λ d. Some (day_text d) };

    ghost styled_output = { λ d spec. Some (padded spec (day_text d)) };

    fn fmt<W: fmt::Write>(&self, f: &mut fmt::Formatter<W>) -> fmt::Result {
        display_digits(&self.write_text(), f)
    }
}
