// What is true of requests and of connections. These do nothing when they run.
ghost use Rattle.std.specs.Prelude.{◌≡◌, ◌≢◌, ◌==◌, ℕ, List, [], ◌∷◌, filter, Ok, Option, Some};
ghost use Rattle.front_api.specs.Seen.{SeenBooks};
ghost use Rattle.front_api.specs.SeenLaws.{BooksGoOn, OfMetricHistory, SeeNoFault, WereAllOpened};
ghost use Rattle.measure_json.specs.Answer.{answer_json};
ghost use Rattle.measure_json.specs.Measures.{measures_read};
ghost use Rattle.measure_query.specs.Key.{pairs_of};
ghost use Rattle.measure_query.specs.Query.{IsAsked};
ghost use Rattle.measure_query.specs.declared.query.Asked.{Asked};
ghost use Rattle.rest_api.specs.Available.{AreAvailable, BeginsAvailable};
ghost use Rattle.rest_api.specs.Handling.{Handles};
ghost use Rattle.rest_api.specs.Message.{Converses, Message};
ghost use Rattle.rest_api.specs.Session.{Conversed};
ghost use Rattle.rest_api.specs.declared.conn_end.ConnEnd.{ConnEnd};
ghost use Rattle.rest_replies.specs.declared.handled.Handled.{Handled};
ghost use Rattle.rest_replies.specs.declared.status.HttpStatus.{HttpStatus};
ghost use Rattle.rest_routes.specs.Routes.{found, routing_of};
ghost use Rattle.rest_routes.specs.declared.method.Method.{Method};
ghost use Rattle.rest_routes.specs.declared.route.Route.{Route};
ghost use Rattle.sack_history.specs.Answering.{answer_rows};
ghost use Rattle.sack_history.specs.Entries.{kept};
ghost use Rattle.sack_history.specs.Lives.{all_posts};
ghost use Rattle.series_model.specs.declared.answer.Row.{Row};
ghost use Rattle.series_model.specs.declared.measure.Measure.{Measure};
ghost use Rattle.series_model.specs.declared.metric.MetricId.{MetricId};

/// What was seen of each book before a request, and before the messages of a connection, is the
/// beginning of what is seen behind it.
pub fn requests_go_on()
    ensures request { (method target body : List ℕ) (answer : Handled) (old new : SeenBooks)
        → Handles method target body answer old new → BooksGoOn old new }
    ensures messages { (messages : List Message) (text : List ℕ) (old new : SeenBooks)
        → Converses messages text old new → BooksGoOn old new }
{}

/// A batch whose post is answered 202 stands once in the history of the metric's sack, with a number of
/// its own.
pub fn accepted_batches_stand()
    ensures { (method target body query : List ℕ) (metric : MetricId) (answer : Handled) (old new : SeenBooks)
        → routing_of method target ≡ found (Route.Measures (Some metric)) Method.Post query
        → answer.status ≡ HttpStatus.Accepted → Handles method target body answer old new
        → (measures : List Measure) × (number : ℕ) × (measures_read body ≡ Ok measures)
        × OfMetricHistory metric (λ h. filter (λ p. p.number == number) (all_posts (kept h))
        ≡ record { number = number; metric = metric; measures = measures } ∷ []) new }
{}

/// What a read of measures is answered with 200 is what grouping from scratch gives of the history of the
/// metric's sack, as far as it is seen then.
pub fn rows_are_from_scratch()
    ensures { (method target body query : List ℕ) (metric : MetricId) (answer : Handled) (old new : SeenBooks)
        → routing_of method target ≡ found (Route.Measures (Some metric)) Method.Get query
        → answer.status ≡ HttpStatus.Okay → Handles method target body answer old new
        → (asked : Asked) × (rows : List Row) × IsAsked (pairs_of query) asked
        × (answer.body.items ≡ answer_json asked.exact rows)
        × OfMetricHistory metric (λ h. rows ≡ answer_rows metric asked.query (kept h)) new }
{}

/// A request is answered 503 only where a disk failed in it, which is seen as a fault of a book. So where no fault is seen of
/// any book, no request is answered so, and no message of a connection.
pub fn without_faults_available()
    ensures request { (method target body : List ℕ) (answer : Handled) (old new : SeenBooks)
        → WereAllOpened old → SeeNoFault new → Handles method target body answer old new → answer.status ≢ HttpStatus.Unavailable }
    ensures connection { (messages : List Message) (behind : List ℕ) (left : Option (List ℕ)) (end : ConnEnd) (answered last : List ℕ) (old new : SeenBooks)
        → WereAllOpened old → SeeNoFault new → Conversed messages behind left end answered last old new
        → AreAvailable messages answered × BeginsAvailable last }
{}
