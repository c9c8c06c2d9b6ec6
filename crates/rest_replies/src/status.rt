// The statuses of responses.
ghost use Rattle.std.specs.Prelude.{◌≡◌, ◌++◌};
ghost use Rattle.rest_replies.specs.Status.{line_end, status_code, status_line};

/// The status of a response.
#[derive(Clone, Copy, Debug, PartialEq, Eq)]
pub enum HttpStatus {
    Okay,
    Created,
    Accepted,
    NoContent,
    BadRequest,
    NotFound,
    MethodNotAllowed,
    Conflict,
    LengthRequired,
    ContentTooLarge,
    HeaderFieldsTooLarge,
    InternalError,
    NotImplemented,
    Unavailable,
    InsufficientStorage,
}

impl HttpStatus {
    /// The number.
    pub fn code(self) -> u16
        ensures { result ≡ status_code self }
    {
        match self {
            HttpStatus::Okay => 200,
            HttpStatus::Created => 201,
            HttpStatus::Accepted => 202,
            HttpStatus::NoContent => 204,
            HttpStatus::BadRequest => 400,
            HttpStatus::NotFound => 404,
            HttpStatus::MethodNotAllowed => 405,
            HttpStatus::Conflict => 409,
            HttpStatus::LengthRequired => 411,
            HttpStatus::ContentTooLarge => 413,
            HttpStatus::HeaderFieldsTooLarge => 431,
            HttpStatus::InternalError => 500,
            HttpStatus::NotImplemented => 501,
            HttpStatus::Unavailable => 503,
            HttpStatus::InsufficientStorage => 507,
        }
    }

    /// The first line of a response, with its end.
    pub(crate) fn line(&self) -> &[u8]
        ensures { result.now ≡ status_line self.now ++ line_end }
    {
        match self {
            HttpStatus::Okay => b"HTTP/1.1 200 OK\r\n",
            HttpStatus::Created => b"HTTP/1.1 201 Created\r\n",
            HttpStatus::Accepted => b"HTTP/1.1 202 Accepted\r\n",
            HttpStatus::NoContent => b"HTTP/1.1 204 No Content\r\n",
            HttpStatus::BadRequest => b"HTTP/1.1 400 Bad Request\r\n",
            HttpStatus::NotFound => b"HTTP/1.1 404 Not Found\r\n",
            HttpStatus::MethodNotAllowed => b"HTTP/1.1 405 Method Not Allowed\r\n",
            HttpStatus::Conflict => b"HTTP/1.1 409 Conflict\r\n",
            HttpStatus::LengthRequired => b"HTTP/1.1 411 Length Required\r\n",
            HttpStatus::ContentTooLarge => b"HTTP/1.1 413 Content Too Large\r\n",
            HttpStatus::HeaderFieldsTooLarge => b"HTTP/1.1 431 Request Header Fields Too Large\r\n",
            HttpStatus::InternalError => b"HTTP/1.1 500 Internal Server Error\r\n",
            HttpStatus::NotImplemented => b"HTTP/1.1 501 Not Implemented\r\n",
            HttpStatus::Unavailable => b"HTTP/1.1 503 Service Unavailable\r\n",
            HttpStatus::InsufficientStorage => b"HTTP/1.1 507 Insufficient Storage\r\n",
        }
    }
}
