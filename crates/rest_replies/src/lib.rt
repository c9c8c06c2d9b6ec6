//! The texts of the REST interface: responses, the codes of refused requests, error bodies, and the
//! lines of scripts with their replies.
#![tactic(auto)]

mod code;
mod error;
mod error_body;
mod faults;
mod handled;
mod laws;
mod pieces;
mod reply_line;
mod response;
mod script;
mod status;
#[cfg(test)]
mod tests;

pub use code::ErrorCode;
pub use error::RestError;
pub use faults::NamedIn;
pub use handled::Handled;
pub use laws::{
    error_bodies_are_json, heads_are_lines, one_code, one_reply_line, one_response,
    one_script_line, one_status,
};
pub use reply_line::{no_memory_line, write_reply_line};
pub use response::{continue_response, no_memory_response, write_response};
pub use script::{ScriptLine, read_line};
pub use status::HttpStatus;
