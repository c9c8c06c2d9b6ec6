//! The words of the command `gnocchi`: which command they are, the disks that it has, and the statuses
//! that it ends with.
#![tactic(auto)]

mod command;
mod fault;
mod flag;
mod given;
mod home;
mod laws;
mod make;
mod number;
mod plan;
mod setting;
mod status;
#[cfg(test)]
mod tests;
mod text;
mod verb;

pub use command::{Command, read_command};
pub use fault::PlanFault;
pub use flag::Flag;
pub use home::Home;
pub use laws::{
    any_order, both_spellings, distinct_disks, five_disks_a_sack, numbers_are_decimals, one_command,
};
pub use plan::{Plan, disk_plan};
pub use status::Status;
pub use text::Text;
pub use verb::Verb;
