// What a request is answered.
ghost use Rattle.std.specs.Prelude.{◌≡◌, [], None};
ghost use Rattle.rest_replies.specs.ErrorBody.{error_text, jobs_text};
ghost use Rattle.rest_replies.specs.Handled.{AnswersWith, IsHandled, IsNoMemory};

use crate::code::ErrorCode;
use crate::error::RestError;
use crate::error_body::{error_body, jobs_body};
use crate::status::HttpStatus;
use std::alloc::Global;

/// The answer to a request.
#[derive(Debug, Drop)]
pub struct Handled {
    pub status: HttpStatus,
    /// The methods of the route, where it lacks the one that was asked for; else empty.
    pub allow: &'static str,
    /// Of a 500 it is empty: that one's body is always the same, and is written without memory.
    pub body: Vec<u8>,
}

impl Handled {
    /// A status and a body.
    pub fn with_body(status: HttpStatus, body: Vec<u8>) -> Handled
        ensures { IsHandled result status [] body.items }
    {
        Handled {
            status,
            allow: "",
            body,
        }
    }

    /// A status alone. It takes no memory.
    pub fn without_body(alloc: Global, status: HttpStatus) -> Handled
        ensures { IsHandled result status [] [] }
    {
        Handled::with_body(status, Vec::new(alloc))
    }

    /// That there was no memory. It takes none.
    pub fn no_memory(alloc: Global) -> Handled
        ensures { IsNoMemory result }
    {
        Handled::without_body(alloc, HttpStatus::InternalError)
    }

    /// Why a request was refused, and how many members of a list in its body stand, where that is
    /// told. Where it was want of memory, this takes none.
    pub fn of_error(alloc: Global, error: RestError, stored: Option<u64>) -> Handled
        ensures told { AnswersWith result error.status [] (error_text error.code error.at stored) }
        ensures no_memory { error.status ≡ HttpStatus.InternalError → IsNoMemory result }
    {
        if matches!(error.status, HttpStatus::InternalError) {
            return Handled::no_memory(alloc);
        }
        match error_body(alloc, error, stored) {
            Ok(body) => Handled::with_body(error.status, body),
            Err(_) => Handled::no_memory(alloc),
        }
    }

    /// That a route lacks the method that was asked for, and those that it has.
    pub fn no_method(alloc: Global, allow: &'static str) -> Handled
        ensures { AnswersWith result HttpStatus.MethodNotAllowed allow.now (error_text ErrorCode.NoMethod None None) }
    {
        match error_body(alloc, RestError::of(ErrorCode::NoMethod), None) {
            Ok(body) => Handled {
                status: HttpStatus::MethodNotAllowed,
                allow,
                body,
            },
            Err(_) => Handled::no_memory(alloc),
        }
    }

    /// How many turns were taken, as a script's `WORK` is answered.
    pub fn jobs(alloc: Global, jobs: u64) -> Handled
        ensures { AnswersWith result HttpStatus.Okay [] (jobs_text jobs) }
    {
        match jobs_body(alloc, jobs) {
            Ok(body) => Handled::with_body(HttpStatus::Okay, body),
            Err(_) => Handled::no_memory(alloc),
        }
    }
}
