//! The names of fields.

use bsp_fault_texts::Words;

/// What a field is.
#[derive(Clone, Copy)]
pub enum Name {
    /// The kind of a record of a RET file.
    Identifier,
    /// The profile.
    Profile,
    /// The production status.
    Production,
    /// The system that wrote a RET file.
    SystemId,
    /// The day of a RET file.
    Date,
    /// The hour.
    Hours,
    /// The minute.
    Minutes,
    /// The country of a RET file.
    Country,
    /// The file number.
    FileNumber,
    /// The code of a transaction.
    TransactionCode,
    /// The agent.
    Agent,
    /// The airline.
    Airline,
    /// The document.
    Document,
    /// The check digit.
    CheckDigit,
    /// The date of issue.
    DateOfIssue,
    /// The fare.
    Fare,
    /// The tax place of that number, from 1 to 6.
    TaxPlace(u8),
    /// The code in the tax place of that number.
    TaxCode(u8),
    /// The amount in the tax place of that number.
    TaxAmount(u8),
    /// The rate of commission.
    Rate,
    /// The commission.
    Commission,
    /// The rate of tax on commission.
    CommissionTaxRate,
    /// The tax on commission.
    CommissionTax,
    /// The form of payment.
    FormOfPayment,
    /// The amount.
    Amount,
    /// The card vendor.
    CardVendor,
    /// The number of records.
    RecordCount,
    /// The number of transactions.
    TransactionCount,
    /// The sum.
    Sum,
    /// The period.
    Period,
    /// The first day.
    FirstDay,
    /// The last day.
    LastDay,
    /// The day of remittance.
    RemittanceDay,
    /// The currency.
    Currency,
    /// The transaction number.
    TransactionNumber,
    /// The code of a document or a memo.
    DocumentCode,
    /// The number of documents.
    Documents,
    /// The number of offices.
    Offices,
    /// The total of cash.
    Cash,
    /// The total of credit.
    Credit,
    /// The net total.
    Net,
    /// Columns that no field uses.
    Unused,
}

impl Name {
    /// What people call the field, without the number of a tax place.
    fn text(self) -> &'static str {
        match self {
            Name::Identifier => "the identifier",
            Name::Profile => "the profile",
            Name::Production => "the production status",
            Name::SystemId => "the system id",
            Name::Date => "the date",
            Name::Hours => "the hour",
            Name::Minutes => "the minute",
            Name::Country => "the country",
            Name::FileNumber => "the file number",
            Name::TransactionCode => "the code",
            Name::Agent => "the agent",
            Name::Airline => "the airline",
            Name::Document => "the document",
            Name::CheckDigit => "the check digit",
            Name::DateOfIssue => "the date of issue",
            Name::Fare => "the fare",
            Name::TaxPlace(_) => "tax place",
            Name::TaxCode(_) => "the code in tax place",
            Name::TaxAmount(_) => "the amount in tax place",
            Name::Rate => "the rate of commission",
            Name::Commission => "the commission",
            Name::FormOfPayment => "the form of payment",
            Name::Amount => "the amount",
            Name::CardVendor => "the card vendor",
            _ => self.text_in_totals(),
        }
    }

    /// As `text`, of the fields of trailers and of a HOT file.
    fn text_in_totals(self) -> &'static str {
        match self {
            Name::RecordCount => "the number of records",
            Name::TransactionCount => "the number of transactions",
            Name::Sum => "the sum",
            Name::Period => "the period",
            Name::FirstDay => "the first day",
            Name::LastDay => "the last day",
            Name::RemittanceDay => "the day of remittance",
            Name::Currency => "the currency",
            Name::TransactionNumber => "the transaction number",
            Name::DocumentCode => "the code",
            Name::Documents => "the number of documents",
            Name::Offices => "the number of offices",
            Name::Cash => "the total of cash",
            Name::Credit => "the total of credit",
            Name::Net => "the net total",
            Name::CommissionTaxRate => "the rate of tax on commission",
            Name::CommissionTax => "the tax on commission",
            // (`Unused`: `text` names all others)
            _ => "the rest of the record",
        }
    }

    /// The number of the tax place that it is, or lies in.
    fn tax_place(self) -> Option<u8> {
        match self {
            Name::TaxPlace(number) | Name::TaxCode(number) | Name::TaxAmount(number) => Some(
                number,
            ),
            _ => None,
        }
    }

    /// Says the name as people call it.
    pub(crate) fn say(self, words: &mut Words) {
        words.add(self.text());
        if let Some(number) = self.tax_place() {
            words.add(" ");
            words.show(number);
        }
    }
}
