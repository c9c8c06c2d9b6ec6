//! The REST interface over any front: what a request asks of it and how it is answered, and the
//! requests of a connection, one after another.
#![tactic(auto)]

mod commands;
mod conn_end;
mod connection;
mod handling;
mod laws;
mod measures;
mod members;
mod shown;
#[cfg(test)]
mod tests;

pub use conn_end::ConnEnd;
pub use connection::serve_stream;
pub use handling::{Api, handle};
pub use laws::{
    accepted_batches_stand, requests_go_on, rows_are_from_scratch, without_faults_available,
};
