// What is told of the faults of the layers below.
ghost use Rattle.std.specs.Prelude.{◌≡◌};
ghost use Rattle.rest_replies.specs.declared.code.ErrorCode.TheVariants.{Memory as No_Memory};
ghost use Rattle.rest_replies.specs.Error.{plain_error};
ghost use Rattle.rest_replies.specs.Faults.{answer_error, body_error, control_body_error, control_error, head_error, json_code, number_code, policy_code, query_error, sack_error, time_code, unknown_policy, unknown_resource};

use crate::code::ErrorCode;
use crate::error::RestError;
use archive_policy::PolicyFault;
use control_docs::ControlBodyFault;
use front_api::ControlFault;
use gno_num::{Memory, NumFault};
use gno_time::TimeFault;
use http_conn::HeadEnd;
use measure_json::{BodyFault, JsonKind};
use measure_query::QueryFault;
use sack_history::{AnswerFault, SackFault};

/// Where the names stand that a command speaks of.
#[derive(Clone, Copy, Debug, PartialEq, Eq)]
pub enum NamedIn {
    /// All in the path.
    Path,
    /// All in the body.
    Body,
    /// The resource in the path, the policy in the body.
    Both,
}

impl From<Memory> for RestError {
    ghost from_gives = { λ _ error. error ≡ plain_error No_Memory };

    fn from(_: Memory) -> RestError {
        RestError::of(ErrorCode::Memory)
    }
}

impl From<SackFault> for RestError {
    ghost from_gives = { λ fault error. error ≡ sack_error fault };

    fn from(fault: SackFault) -> RestError {
        RestError::of(match fault {
            SackFault::Unknown => ErrorCode::MetricUnknown,
            SackFault::Spent(_) => ErrorCode::Spent,
            SackFault::DiskFault(_) => ErrorCode::Disk,
            SackFault::Damaged(_) => ErrorCode::Damaged,
            SackFault::Memory => ErrorCode::Memory,
        })
    }
}

impl From<AnswerFault> for RestError {
    ghost from_gives = { λ fault error. error ≡ answer_error fault };

    fn from(fault: AnswerFault) -> RestError {
        RestError::of(match fault {
            AnswerFault::Unknown => ErrorCode::MetricUnknown,
            AnswerFault::NoAggregation => ErrorCode::NoAggregation,
            AnswerFault::NoGranularity => ErrorCode::NoGranularity,
            AnswerFault::Spent(_) => ErrorCode::Spent,
            AnswerFault::DiskFault(_) => ErrorCode::Disk,
            AnswerFault::Damaged(_) => ErrorCode::Damaged,
            AnswerFault::Memory => ErrorCode::Memory,
        })
    }
}

impl From<BodyFault> for RestError {
    ghost from_gives = { λ fault error. error ≡ body_error fault };

    fn from(fault: BodyFault) -> RestError {
        match fault {
            BodyFault::Json { at, kind } => RestError::at_place(json_code(kind), at),
            BodyFault::Memory => RestError::of(ErrorCode::Memory),
        }
    }
}

impl From<QueryFault> for RestError {
    ghost from_gives = { λ fault error. error ≡ query_error fault };

    fn from(fault: QueryFault) -> RestError {
        match fault {
            QueryFault::BadQuery => RestError::of(ErrorCode::BadQuery),
            QueryFault::Memory => RestError::of(ErrorCode::Memory),
        }
    }
}

impl From<ControlBodyFault> for RestError {
    ghost from_gives = { λ fault error. error ≡ control_body_error fault };

    fn from(fault: ControlBodyFault) -> RestError {
        match fault {
            ControlBodyFault::BadBody => RestError::of(ErrorCode::BadBody),
            ControlBodyFault::BadName => RestError::of(ErrorCode::BadName),
            ControlBodyFault::BadSpan => RestError::of(ErrorCode::BadSpan),
            ControlBodyFault::SpanRange => RestError::of(ErrorCode::SpanRange),
            ControlBodyFault::BadAggregation => RestError::of(ErrorCode::BadAggregation),
            ControlBodyFault::Policy(fault) => RestError::of(policy_code(fault)),
            ControlBodyFault::Memory => RestError::of(ErrorCode::Memory),
        }
    }
}

impl RestError {
    /// What is told of a refused command, by where its names stand.
    pub fn of_command(fault: ControlFault, named: NamedIn) -> RestError
        ensures { result ≡ control_error named fault }
    {
        match fault {
            ControlFault::PolicyUnknown => unknown_policy(named),
            ControlFault::ResourceUnknown => unknown_resource(named),
            ControlFault::PolicyExists => RestError::of(ErrorCode::PolicyExists),
            ControlFault::PolicyInUse => RestError::of(ErrorCode::PolicyInUse),
            ControlFault::RuleExists => RestError::of(ErrorCode::RuleExists),
            ControlFault::RuleUnknown => RestError::of(ErrorCode::RuleUnknown),
            ControlFault::NoRule => RestError::of(ErrorCode::NoRule),
            ControlFault::NameTaken => RestError::of(ErrorCode::NameTaken),
            ControlFault::MetricUnknown => RestError::of(ErrorCode::MetricUnknown),
            ControlFault::ResourceExists => RestError::of(ErrorCode::ResourceExists),
            ControlFault::ResourceInUse => RestError::of(ErrorCode::ResourceInUse),
            ControlFault::IdTaken(_) => RestError::of(ErrorCode::IdTaken),
            ControlFault::Spent(_) => RestError::of(ErrorCode::Spent),
            ControlFault::DiskFault(_) => RestError::of(ErrorCode::Disk),
            ControlFault::Damaged(_) => RestError::of(ErrorCode::Damaged),
            ControlFault::Memory => RestError::of(ErrorCode::Memory),
        }
    }

    /// What is told of a message that is refused by its head. Where the input ended or failed, or
    /// there was no memory to read it, there is no message to answer.
    pub fn of_head(end: HeadEnd) -> Option<RestError>
        ensures { result ≡ head_error end }
    {
        match end {
            HeadEnd::BadHead => Some(RestError::of(ErrorCode::BadHead)),
            HeadEnd::HeadTooLarge => Some(RestError::of(ErrorCode::HeadTooLarge)),
            HeadEnd::Coding => Some(RestError::of(ErrorCode::Coding)),
            HeadEnd::NoLength => Some(RestError::of(ErrorCode::NoLength)),
            HeadEnd::BodyTooLarge => Some(RestError::of(ErrorCode::BodyTooLarge)),
            HeadEnd::End | HeadEnd::Cut | HeadEnd::TooMuch | HeadEnd::ReadFault | HeadEnd::Memory =>
                None,
        }
    }
}

fn unknown_policy(named: NamedIn) -> RestError
    ensures { result ≡ unknown_policy named }
{
    match named {
        NamedIn::Path => RestError::of(ErrorCode::PolicyUnknown),
        NamedIn::Body | NamedIn::Both => RestError::in_body(ErrorCode::PolicyUnknown),
    }
}

fn unknown_resource(named: NamedIn) -> RestError
    ensures { result ≡ unknown_resource named }
{
    match named {
        NamedIn::Path | NamedIn::Both => RestError::of(ErrorCode::ResourceUnknown),
        NamedIn::Body => RestError::in_body(ErrorCode::ResourceUnknown),
    }
}

fn json_code(kind: JsonKind) -> ErrorCode
    ensures { result ≡ json_code kind }
{
    match kind {
        JsonKind::Syntax => ErrorCode::Syntax,
        JsonKind::NotMeasure => ErrorCode::NotMeasure,
        JsonKind::BadId => ErrorCode::BadId,
        JsonKind::Time(fault) => time_code(fault),
        JsonKind::Number(fault) => number_code(fault),
        JsonKind::TooMany => ErrorCode::TooMany,
    }
}

fn time_code(fault: TimeFault) -> ErrorCode
    ensures { result ≡ time_code fault }
{
    match fault {
        TimeFault::BadTime => ErrorCode::BadTime,
        TimeFault::BeforeEpoch => ErrorCode::BeforeEpoch,
        TimeFault::TooLate => ErrorCode::TooLate,
    }
}

fn number_code(fault: NumFault) -> ErrorCode
    ensures { result ≡ number_code fault }
{
    match fault {
        NumFault::TooLong => ErrorCode::TooLong,
        NumFault::NotANumber => ErrorCode::NotANumber,
        NumFault::TooLarge => ErrorCode::TooLarge,
    }
}

fn policy_code(fault: PolicyFault) -> ErrorCode
    ensures { result ≡ policy_code fault }
{
    match fault {
        PolicyFault::BackWindow => ErrorCode::BackWindow,
        PolicyFault::NoDefinition => ErrorCode::NoDefinition,
        PolicyFault::TooMany => ErrorCode::TooManyDefinitions,
        PolicyFault::TooFew => ErrorCode::TooFew,
        PolicyFault::ZeroPoints => ErrorCode::ZeroPoints,
        PolicyFault::SpanMismatch => ErrorCode::SpanMismatch,
        PolicyFault::GranularityRange => ErrorCode::GranularityRange,
        PolicyFault::PointsRange => ErrorCode::PointsRange,
        PolicyFault::SameGranularity => ErrorCode::SameGranularity,
        PolicyFault::NotDividing { .. } => ErrorCode::NotDividing,
        PolicyFault::NoAggregation => ErrorCode::NoAggregationMethod,
        PolicyFault::Memory => ErrorCode::Memory,
    }
}
