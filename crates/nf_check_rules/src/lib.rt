//! Tests the rules of an equilibrium one by one, except those of the labels. Defines how a test ends, and computes the loadings of a flow.
//! Times, amounts and rates are exact fractions.
#![tactic(auto)]

mod arriving;
mod balances;
mod compared;
mod ended;
mod exits;
mod inflows;
mod link_curves;
mod loads;
mod rates;
mod routes;
mod sent;
mod stretches;
mod subject;
mod told;
mod totals;
mod values;
mod worked;

pub use arriving::least_exits;
pub use balances::check_balances;
pub use compared::compare;
pub use ended::{Ended, unless};
pub use exits::Exits;
pub use inflows::check_inflows;
pub use loads::load_links;
pub use rates::check_rates;
pub use routes::check_routes;
pub use subject::Subject;
pub use told::{check_outflows, check_queues};
pub use worked::{Worked, curve_at, label_at};
