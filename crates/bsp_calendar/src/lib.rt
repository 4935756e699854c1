//! The published plan of a market: its terms, airlines, rates of commission, taxes on commission and
//! billing periods, the business day, and the closing of periods.
#![tactic(auto)]

mod checks;
mod currency;
mod days;
mod entries;
mod fault;
mod history;
mod keys;
mod listed;
mod plan;
mod reading;
mod taxes;

pub use currency::Currency;
pub use entries::{CommissionTax, Period, PlanText, Rate, Terms};
pub use fault::PlanFault;
pub use history::{closed_stays, published_history, sound_plan, untaxed_is_zero};
pub use plan::Plan;
pub use reading::read_plan;
