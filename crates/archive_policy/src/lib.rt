//! Archive policies: the names, definitions and kinds of aggregation that a metric's series are
//! kept by, and the one function that makes a policy of what is asked for.
#![tactic(auto)]

mod definition;
mod fault;
mod first_fault;
mod kind;
mod laws;
mod name;
mod policy;
#[cfg(test)]
mod tests;
mod wanted;

pub use definition::Definition;
pub use fault::{NameFault, PolicyFault};
pub use kind::Kind;
pub use laws::{fault_is_first, kinds_are_told_apart, one_policy, policy_again, policy_is_asked};
pub use name::Name;
pub use policy::Policy;
pub use wanted::Wanted;
