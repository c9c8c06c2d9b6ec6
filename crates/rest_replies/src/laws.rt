// What is true of statuses, codes, responses and script lines. These do nothing when they run.
ghost use Rattle.std.specs.Prelude.{◌≡◌, ◌≢◌, ◌^◌, ◌<◌, ℕ, Bool, List, ◌++◌, All, IfSome, Option, Some, length};
ghost use Rattle.serde_json.specs.Read.{read};
ghost use Rattle.rest_replies.specs.declared.code.ErrorCode.{ErrorCode};
ghost use Rattle.rest_replies.specs.declared.status.HttpStatus.{HttpStatus};
ghost use Rattle.rest_replies.specs.Code.{code_text};
ghost use Rattle.rest_replies.specs.ErrorBody.{error_text};
ghost use Rattle.rest_replies.specs.ErrorValue.{error_value};
ghost use Rattle.rest_replies.specs.Response.{IsHeadLine, body_of, body_sent, head_lines, response_text};
ghost use Rattle.rest_replies.specs.ReplyLine.{reply_line_text};
ghost use Rattle.rest_replies.specs.Script.{LineMeaning, Means};
ghost use Rattle.rest_replies.specs.Status.{status_code};

/// A number is that of one status.
pub fn one_status()
    ensures { (a b : HttpStatus) → status_code a ≡ status_code b → a ≡ b }
{}

/// A text is that of one code.
pub fn one_code()
    ensures { (a b : ErrorCode) → code_text a ≡ code_text b → a ≡ b }
{}

/// What stands before the body of a response is lines, where no end of a line stands in the names of
/// the methods.
pub fn heads_are_lines()
    ensures { (close : Bool) (status : HttpStatus) (allow body : List ℕ)
        → All (λ b. (b ≢ 13) × (b ≢ 10)) allow → length body < 2 ^ 64
        → All IsHeadLine (head_lines close status allow body) }
{}

/// Who reads a response knows where it ends, by its lines and the length that they tell: bytes begin
/// with one response, of one status and one body.
pub fn one_response()
    ensures { (is_head close other_close : Bool) (status other : HttpStatus) (allow methods body text rest more : List ℕ)
        → All (λ b. (b ≢ 13) × (b ≢ 10)) allow → All (λ b. (b ≢ 13) × (b ≢ 10)) methods
        → length body < 2 ^ 64 → length text < 2 ^ 64
        → response_text is_head close status allow body ++ rest ≡ response_text is_head other_close other methods text ++ more
        → (status ≡ other) × (body_sent is_head status body ≡ body_sent is_head other text) × (rest ≡ more) }
{}

/// Bytes begin with one reply line, of one status and one body, where no line feed stands in a body.
pub fn one_reply_line()
    ensures { (status other : HttpStatus) (body text rest more : List ℕ)
        → All (λ b. b ≢ 10) body → All (λ b. b ≢ 10) text
        → reply_line_text status body ++ rest ≡ reply_line_text other text ++ more
        → (status ≡ other) × (body_of status body ≡ body_of other text) × (rest ≡ more) }
{}

/// A line of a script asks for one thing.
pub fn one_script_line()
    ensures { (line : List ℕ) (one other : LineMeaning) → Means line one → Means line other → one ≡ other }
{}

/// An error body is a JSON object of the place, the code and how many members stand.
pub fn error_bodies_are_json()
    ensures { (code : ErrorCode) (at stored : Option ℕ) → IfSome at (λ n. n < 2 ^ 64) → IfSome stored (λ n. n < 2 ^ 64)
        → read (error_text code at stored) ≡ Some (error_value code at stored) }
{}
