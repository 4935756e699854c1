//! The forms of the values of a plan text: codes, days, rates and amounts.

ghost use Rattle.std.specs.Prelude.{◌≡◌};
ghost use Rattle.toml.specs.View.{view};
ghost use Rattle.bsp_calendar.specs.PlanDocument.{airline_of, code_of, currency_of, day_of};

use crate::currency::Currency;
use bsp_fields::{AirlineCode, Day, PeriodCode};
use toml::Value;

/// A form of values.
pub trait Form {
    ghost use Rattle.std.specs.Prelude.{Option};
    ghost use Rattle.toml.specs.Data.{Data};

    /// What a value in this form is read as.
    type Read: Drop;

    ghost form: { Data → Option Self.Read };

    /// What the value is read as, where it is in this form.
    fn read(value: &Value) -> Option<Self::Read>
        ensures { result ≡ form (view value.now) };
}

/// The code of a currency.
pub struct CurrencyForm;

impl Form for CurrencyForm {
    type Read = Currency;

    ghost form = { currency_of };

    fn read(value: &Value) -> Option<Currency> {
        Currency::read(value.as_str()?.as_bytes())
    }
}

/// The code of an airline.
pub struct AirlineForm;

impl Form for AirlineForm {
    type Read = AirlineCode;

    ghost form = { airline_of };

    fn read(value: &Value) -> Option<AirlineCode> {
        AirlineCode::read(value.as_str()?.as_bytes()).ok()
    }
}

/// The code of a billing period.
pub struct PeriodCodeForm;

impl Form for PeriodCodeForm {
    type Read = PeriodCode;

    ghost form = { code_of };

    fn read(value: &Value) -> Option<PeriodCode> {
        PeriodCode::read(value.as_str()?.as_bytes()).ok()
    }
}

/// A day.
pub struct DayForm;

impl Form for DayForm {
    type Read = Day;

    ghost form = { day_of };

    fn read(value: &Value) -> Option<Day> {
        Day::read_text(value.as_str()?.as_bytes()).ok()
    }
}
