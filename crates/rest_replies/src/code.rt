// The codes of refused requests.
ghost use Rattle.std.specs.Prelude.{◌≡◌};
ghost use Rattle.rest_replies.specs.Code.{code_status, code_text};

use crate::status::HttpStatus;

/// Why a request is refused, as error bodies name it.
#[derive(Clone, Copy, Debug, PartialEq, Eq)]
pub enum ErrorCode {
    Syntax,
    NotMeasure,
    BadId,
    BadTime,
    BeforeEpoch,
    TooLate,
    TooLong,
    NotANumber,
    TooLarge,
    TooMany,
    BadQuery,
    BadBody,
    BadName,
    BadSpan,
    SpanRange,
    BadAggregation,
    BackWindow,
    NoDefinition,
    TooManyDefinitions,
    TooFew,
    ZeroPoints,
    SpanMismatch,
    GranularityRange,
    PointsRange,
    SameGranularity,
    NotDividing,
    NoAggregationMethod,
    NoRule,
    BadLine,
    BadHead,
    NoRoute,
    MetricUnknown,
    PolicyUnknown,
    RuleUnknown,
    ResourceUnknown,
    NoAggregation,
    NoGranularity,
    NoMethod,
    PolicyExists,
    PolicyInUse,
    RuleExists,
    NameTaken,
    ResourceExists,
    ResourceInUse,
    IdTaken,
    NoLength,
    BodyTooLarge,
    HeadTooLarge,
    Coding,
    Memory,
    Disk,
    Damaged,
    Spent,
}

impl ErrorCode {
    /// The status of a response with this code. Of `PolicyUnknown` and `ResourceUnknown` it is that of
    /// a name in the path.
    pub fn status(self) -> HttpStatus
        ensures { result ≡ code_status self }
    {
        self.row().0
    }

    /// The code as it is written.
    pub fn text(self) -> &'static str
        ensures { result.now ≡ code_text self }
    {
        self.row().1
    }

    /// The status and the text.
    fn row(self) -> (HttpStatus, &'static str)
        ensures status { result.0 ≡ code_status self }
        ensures text { result.1.now ≡ code_text self }
    {
        match self {
            ErrorCode::Syntax => (HttpStatus::BadRequest, "syntax"),
            ErrorCode::NotMeasure => (HttpStatus::BadRequest, "not-measure"),
            ErrorCode::BadId => (HttpStatus::BadRequest, "bad-id"),
            ErrorCode::BadTime => (HttpStatus::BadRequest, "bad-time"),
            ErrorCode::BeforeEpoch => (HttpStatus::BadRequest, "before-epoch"),
            ErrorCode::TooLate => (HttpStatus::BadRequest, "too-late"),
            ErrorCode::TooLong => (HttpStatus::BadRequest, "too-long"),
            ErrorCode::NotANumber => (HttpStatus::BadRequest, "not-a-number"),
            ErrorCode::TooLarge => (HttpStatus::BadRequest, "too-large"),
            ErrorCode::TooMany => (HttpStatus::BadRequest, "too-many"),
            ErrorCode::BadQuery => (HttpStatus::BadRequest, "bad-query"),
            ErrorCode::BadBody => (HttpStatus::BadRequest, "bad-body"),
            ErrorCode::BadName => (HttpStatus::BadRequest, "bad-name"),
            ErrorCode::BadSpan => (HttpStatus::BadRequest, "bad-span"),
            ErrorCode::SpanRange => (HttpStatus::BadRequest, "span-range"),
            ErrorCode::BadAggregation => (HttpStatus::BadRequest, "bad-aggregation"),
            ErrorCode::BackWindow => (HttpStatus::BadRequest, "back-window"),
            ErrorCode::NoDefinition => (HttpStatus::BadRequest, "no-definition"),
            ErrorCode::TooManyDefinitions => (HttpStatus::BadRequest, "too-many-definitions"),
            ErrorCode::TooFew => (HttpStatus::BadRequest, "too-few"),
            ErrorCode::ZeroPoints => (HttpStatus::BadRequest, "zero-points"),
            ErrorCode::SpanMismatch => (HttpStatus::BadRequest, "span-mismatch"),
            ErrorCode::GranularityRange => (HttpStatus::BadRequest, "granularity-range"),
            ErrorCode::PointsRange => (HttpStatus::BadRequest, "points-range"),
            ErrorCode::SameGranularity => (HttpStatus::BadRequest, "same-granularity"),
            ErrorCode::NotDividing => (HttpStatus::BadRequest, "not-dividing"),
            ErrorCode::NoAggregationMethod => (HttpStatus::BadRequest, "no-aggregation-method"),
            ErrorCode::NoRule => (HttpStatus::BadRequest, "no-rule"),
            ErrorCode::BadLine => (HttpStatus::BadRequest, "bad-line"),
            ErrorCode::BadHead => (HttpStatus::BadRequest, "bad-head"),
            ErrorCode::NoRoute => (HttpStatus::NotFound, "no-route"),
            ErrorCode::MetricUnknown => (HttpStatus::NotFound, "metric-unknown"),
            ErrorCode::PolicyUnknown => (HttpStatus::NotFound, "policy-unknown"),
            ErrorCode::RuleUnknown => (HttpStatus::NotFound, "rule-unknown"),
            ErrorCode::ResourceUnknown => (HttpStatus::NotFound, "resource-unknown"),
            ErrorCode::NoAggregation => (HttpStatus::NotFound, "no-aggregation"),
            ErrorCode::NoGranularity => (HttpStatus::NotFound, "no-granularity"),
            ErrorCode::NoMethod => (HttpStatus::MethodNotAllowed, "method"),
            ErrorCode::PolicyExists => (HttpStatus::Conflict, "policy-exists"),
            ErrorCode::PolicyInUse => (HttpStatus::Conflict, "policy-in-use"),
            ErrorCode::RuleExists => (HttpStatus::Conflict, "rule-exists"),
            ErrorCode::NameTaken => (HttpStatus::Conflict, "name-taken"),
            ErrorCode::ResourceExists => (HttpStatus::Conflict, "resource-exists"),
            ErrorCode::ResourceInUse => (HttpStatus::Conflict, "resource-in-use"),
            ErrorCode::IdTaken => (HttpStatus::Conflict, "id-taken"),
            ErrorCode::NoLength => (HttpStatus::LengthRequired, "no-length"),
            ErrorCode::BodyTooLarge => (HttpStatus::ContentTooLarge, "body-too-large"),
            ErrorCode::HeadTooLarge => (HttpStatus::HeaderFieldsTooLarge, "head-too-large"),
            ErrorCode::Coding => (HttpStatus::NotImplemented, "coding"),
            ErrorCode::Memory => (HttpStatus::InternalError, "memory"),
            ErrorCode::Disk => (HttpStatus::Unavailable, "disk"),
            ErrorCode::Damaged => (HttpStatus::Unavailable, "damaged"),
            ErrorCode::Spent => (HttpStatus::InsufficientStorage, "spent"),
        }
    }
}
