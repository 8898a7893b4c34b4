//! Delsarte's bound: duals of its linear program in whole numbers, checked in the scheme of their entry, and the bounds that they give.
#![tactic(auto)]

mod accepted;
mod accepted_dual;
mod check;
mod dual;
mod fault;
mod form;
mod premise;
mod schemes;

pub use accepted::Accepted;
pub use accepted_dual::AcceptedDual;
pub use check::check_dual;
pub use dual::{Allowances, Dual, Multipliers};
pub use fault::DualFault;
pub use form::{are_allowances, are_multipliers, degree, is_in_range};
pub use schemes::check_dual_of_table;
