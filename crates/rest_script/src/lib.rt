//! Scripts over any front: their lines, one after another, and the replies to them.
#![tactic(auto)]

mod laws;
mod line_reader;
mod replying;
mod script_end;
mod serving;
#[cfg(test)]
mod tests;
mod window;

pub use laws::{
    accepted_lines_stand, lines_go_on, one_list_of_lines, whole_scripts_are_answered,
    without_faults_answered,
};
pub use script_end::ScriptEnd;
pub use serving::serve_script;
