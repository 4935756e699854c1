//! Codes and numbers in the digits that a column has.

ghost use Rattle.std.specs.Prelude.{◌≡◌};
ghost use Rattle.bsp_store_columns.specs.Values.{code_digits};

use bsp_rows::{AgentCode, AirlineCode, DocNumber, PeriodCode};

/// The digits of an agent's code.
pub fn agent_digits(code: AgentCode) -> [u8; 8]
    ensures { result ≡ code_digits 8 code }
{
    code.digits()
}

/// The digits of an airline's code.
pub fn airline_digits(code: AirlineCode) -> [u8; 3]
    ensures { result ≡ code_digits 3 code }
{
    code.digits()
}

/// The digits of a period's code.
pub fn period_digits(code: PeriodCode) -> [u8; 5]
    ensures { result ≡ code_digits 5 code }
{
    code.digits()
}

/// The digits of a document number.
pub fn number_digits(number: DocNumber) -> [u8; 10]
    ensures { result ≡ code_digits 10 number }
{
    number.digits()
}
