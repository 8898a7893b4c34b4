//! Primals of Delsarte's linear program: what shows that a dual is a least one.
#![tactic(auto)]

mod primal;
mod primal_check;
mod primal_fault;

pub use primal::Primal;
pub use primal_check::check_primal;
pub use primal_fault::PrimalFault;
