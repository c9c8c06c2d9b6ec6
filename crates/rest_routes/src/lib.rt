//! The routes of the REST interface: what the method and the target of a request ask for, or why
//! they ask for nothing.
#![tactic(auto)]

mod escapes;
mod kind;
mod laws;
mod method;
mod parameter;
mod path;
mod route;
mod routes;
mod target;
#[cfg(test)]
mod tests;

pub use laws::{
    every_row, names_are_names, no_empty_segment, no_slash_at_the_end, one_route, only_rows,
    path_and_query, plain_parameter, routes_are_rows, server_is_left_out,
};
pub use method::Method;
pub use route::Route;
pub use routes::{Routed, Routes};
