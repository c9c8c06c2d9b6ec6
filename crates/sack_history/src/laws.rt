// What the definitions say, in the words of the subject.
ghost use Rattle.std.specs.Prelude.{◌≡◌, ◌≢◌, ◌↔◌, ℕ, ◌+◌, ◌≤◌, Bool, true, false, List, [], ◌∷◌, ◌++◌, length, map, nat_le, not, ◌&&◌, drop, Option, Result, option_map, option_to_list, slice_get, IsTrue};
ghost use Rattle.std.specs.List.{All, Contains, filter, sum_by};
ghost use Rattle.std.specs.List.Sorted.{IsStrictlyIncreasing};
ghost use Rattle.archive_policy.specs.Policies.{ArchivePolicy, IsArchivePolicy};
ghost use Rattle.series_model.specs.declared.answer.Row.{Row};
ghost use Rattle.series_model.specs.declared.measure.Measure.{Measure};
ghost use Rattle.series_model.specs.declared.metric.MetricId.{MetricId};
ghost use Rattle.series_model.specs.declared.query.Query.{Query};
ghost use Rattle.series_model.specs.declared.ticket.Ticket.{Ticket};
ghost use Rattle.series_model.specs.Tail.{accepted_under, kept_window};
ghost use Rattle.bound_series.specs.Jobs.{IsPrepared, JobView, PreparedView};
ghost use Rattle.split_update.specs.Live.{after_commit, live_from_scratch};
ghost use Rattle.sack_history.specs.declared.entry.Counted.{Counted};
ghost use Rattle.sack_history.specs.declared.entry.Entry.{Entry};
ghost use Rattle.sack_history.specs.declared.entry.Counted.TheVariants as counted;
ghost use Rattle.sack_history.specs.declared.entry.Entry.TheVariants as entries;
ghost use Rattle.sack_history.specs.declared.fault.AnswerFault.{AnswerFault};
ghost use Rattle.sack_history.specs.declared.fault.Claim.{Claim};
ghost use Rattle.sack_history.specs.declared.fault.CommitFault.{CommitFault};
ghost use Rattle.sack_history.specs.declared.fault.CreateFault.{CreateFault};
ghost use Rattle.sack_history.specs.declared.fault.ReleaseFault.{ReleaseFault};
ghost use Rattle.sack_history.specs.declared.fault.SackFault.{SackFault};
ghost use Rattle.sack_history.specs.Answering.{answer_rows};
ghost use Rattle.sack_history.specs.Calls.{IsAnswering, IsClaiming, IsCommitting, IsCreating, IsDraining, IsDropping, IsJobOf, IsPosting, IsRefreshing, IsReleasing};
ghost use Rattle.sack_history.specs.Entries.{all_counted, kept};
ghost use Rattle.sack_history.specs.declared.holding.HeldClaim.{HeldClaim};
ghost use Rattle.sack_history.specs.Holding.{all_tickets, held_claim, held_through, is_broken, last_ticket, open_tried};
ghost use Rattle.sack_history.specs.Legal.{IsLegal, IsLegalCount, MayComeNext, MayCount, MayPost, MayProcess};
ghost use Rattle.sack_history.specs.Lives.{IsLastLife, IsWithinLife, Life, Posted, all_posts, batches_of, born, done_of, is_live, is_to, last_post, life_of, life_since, live_ids, subject_of, next_post, pending_of, pending_posts};
ghost use Rattle.sack_history.specs.Scratch.{commit_live, durable, live_of, metric_from_scratch, with_live, without_live};
ghost use Rattle.sack_history.specs.Turns.{MovesFirst, drain_turns, next_turn, refresh_turns, turn_end, turn_posts, turns_due};

use split_update::turn_is_from_scratch;

/// What counts comes behind what counted, and what is only noted changes nothing of it. What was tried
/// counts once the book is found to have it, and never where it isn't found.
pub fn what_counts_is_kept()
    ensures counted { (h : List Entry) (c : Counted) → kept (h ++ entries.Counted c ∷ []) ≡ kept h ++ c ∷ [] }
    ensures all { (h : List Entry) (cs : List Counted) → kept (h ++ all_counted cs) ≡ kept h ++ cs }
    ensures claimed { (h : List Entry) (t : Ticket) (m : MetricId) (upto : ℕ)
        → kept (h ++ entries.Claim t m upto ∷ []) ≡ kept h }
    ensures released { (h : List Entry) (t : Ticket) → kept (h ++ entries.Release t ∷ []) ≡ kept h }
    ensures looked { (h : List Entry) (m : Option MetricId) → kept (h ++ entries.Look m ∷ []) ≡ kept h }
    ensures failed { (h : List Entry) (tried : Option Counted) (before after : ℕ)
        → kept (h ++ entries.Fault tried before after ∷ []) ≡ kept h }
    ensures missed { (h : List Entry) → kept (h ++ entries.Reopened false ∷ []) ≡ kept h }
    ensures found { (sack : ℕ) (h : List Entry) → IsLegal sack h
        → kept (h ++ entries.Reopened true ∷ []) ≡ kept h ++ option_to_list (open_tried h) }
{}

/// What was tried last is known until the book is opened again.
pub fn tried_is_known()
    ensures tried { (h : List Entry) (c : Counted) (before after : ℕ)
        → open_tried (h ++ entries.Fault (Some c) before after ∷ []) ≡ Some c }
    ensures whole { (h : List Entry) → is_broken h ≡ false → open_tried h ≡ None }
    ensures legal { (sack : ℕ) (h : List Entry) (c : Counted) → IsLegal sack h → open_tried h ≡ Some c
        → MayCount (kept h) c }
{}

/// A legal history grows by each entry that may follow it; what counts of it is in order, and entries that
/// count and are in order are one.
pub fn legal_histories_grow()
    ensures more { (sack : ℕ) (h : List Entry) (e : Entry) → IsLegal sack h → MayComeNext sack h e
        → IsLegal sack (h ++ e ∷ []) }
    ensures front { (sack : ℕ) (g h : List Entry) → IsLegal sack (g ++ h) → IsLegal sack g }
    ensures kept { (sack : ℕ) (h : List Entry) → IsLegal sack h → IsLegalCount (kept h) }
    ensures counts { (counts : List Counted) (c : Counted) → IsLegalCount counts → MayCount counts c
        → IsLegalCount (counts ++ c ∷ []) }
    ensures opened { (sack : ℕ) (counts : List Counted) → IsLegalCount counts
        → IsLegal sack (all_counted counts) }
    ensures same { (counts : List Counted) → kept (all_counted counts) ≡ counts }
{}

/// Posts are numbered 1, 2, 3 and so on, so each number stands once.
pub fn posts_are_numbered()
    ensures number { (counts : List Counted) (k : ℕ) (p : Posted) → IsLegalCount counts
        → slice_get (all_posts counts) k ≡ Some p → p.number ≡ k + 1 }
    ensures next { (counts : List Counted) → IsLegalCount counts
        → next_post counts ≡ length (all_posts counts) + 1 }
{}

/// A metric's life is what followed its last `Create`, as long as there was no `Drop` behind that; and a
/// metric that is live has such a life.
pub fn life_is_what_followed()
    ensures followed { (m : MetricId) (before : List Counted) (policy : ArchivePolicy) (since : List Counted)
        → All (IsWithinLife m) since
        → life_of m (before ++ counted.Create m policy ∷ since) ≡ Some (life_since m before policy since) }
    ensures last { (m : MetricId) (counts : List Counted) (life : Life) → life_of m counts ≡ Some life
        → IsLastLife m counts life }
{}

/// A metric that is created starts empty, whatever was posted before; one that is dropped is gone; and an
/// entry of another metric changes nothing of it.
pub fn lives_begin_and_end()
    ensures created { (m : MetricId) (policy : ArchivePolicy) (counts : List Counted)
        → life_of m (counts ++ counted.Create m policy ∷ []) ≡ Some (born policy (last_post counts)) }
    ensures no_batches { (m : MetricId) (policy : ArchivePolicy) (counts : List Counted)
        → batches_of m (counts ++ counted.Create m policy ∷ []) ≡ [] }
    ensures none_pending { (m : MetricId) (policy : ArchivePolicy) (counts : List Counted)
        → pending_of m (counts ++ counted.Create m policy ∷ []) ≡ [] }
    ensures dropped { (m : MetricId) (counts : List Counted)
        → life_of m (counts ++ counted.Drop m ∷ []) ≡ None }
    ensures others { (m : MetricId) (counts : List Counted) (c : Counted) → subject_of c ≢ m
        → life_of m (counts ++ c ∷ []) ≡ life_of m counts }
{}

/// A post waits behind the others of its metric, and is no batch yet.
pub fn post_waits()
    ensures pending { (m : MetricId) (number : ℕ) (measures : List Measure) (counts : List Counted)
        → IsLegalCount counts → MayPost counts number m measures
        → pending_of m (counts ++ counted.Post number m measures ∷ [])
        ≡ pending_of m counts ++ record { number = number; metric = m; measures = measures } ∷ [] }
    ensures batches { (m : MetricId) (number : ℕ) (measures : List Measure) (counts : List Counted)
        → IsLegalCount counts → MayPost counts number m measures
        → batches_of m (counts ++ counted.Post number m measures ∷ []) ≡ batches_of m counts }
{}

/// A `Done` moves exactly the first posts of its metric that wait, at most 64, to its batches.
pub fn turn_moves_first()
    ensures { (m : MetricId) (upto : ℕ) (counts : List Counted) → IsLegalCount counts → MayProcess counts m upto
        → (k : ℕ) × MovesFirst m k counts (counts ++ counted.Done m upto ∷ []) }
{}

/// The next turn of a metric, which may come where a post waits, takes the first 64, or all where there are
/// fewer.
pub fn next_turn_takes_64()
    ensures may { (m : MetricId) (counts : List Counted) → IsLegalCount counts → pending_of m counts ≢ []
        → MayCount counts (next_turn m counts) }
    ensures posts { (m : MetricId) (counts : List Counted) → IsLegalCount counts
        → filter (λ p. nat_le p.number (turn_end m counts)) (pending_of m counts) ≡ turn_posts m counts }
    ensures left { (m : MetricId) (counts : List Counted) → IsLegalCount counts
        → pending_of m (counts ++ next_turn m counts ∷ []) ≡ drop 64 (pending_of m counts) }
{}

/// The list of live metrics has each one that is live, and no other, by rising identifier.
pub fn live_metrics_rise()
    ensures rise { (counts : List Counted) → IsStrictlyIncreasing (map (λ m. m.0) (live_ids counts)) }
    ensures live { (counts : List Counted) (m : MetricId) → Contains (live_ids counts) m
        → IsTrue (is_live m counts) }
    ensures all { (counts : List Counted) (m : MetricId) → IsTrue (is_live m counts)
        → Contains (live_ids counts) m }
{}

/// The posts that wait rise by number, so the first has the least one; those of a metric are its part.
pub fn waiting_posts_rise()
    ensures rise { (counts : List Counted) → IsLegalCount counts
        → IsStrictlyIncreasing (map (λ p. p.number) (pending_posts counts)) }
    ensures part { (m : MetricId) (counts : List Counted) → IsLegalCount counts
        → filter (is_to m) (pending_posts counts) ≡ pending_of m counts }
{}

/// Nothing of a metric waits after the turns of a refresh: they may follow, and there are as many as its posts
/// that wait, divided by 64 and rounded up.
pub fn refresh_leaves_none()
    ensures legal { (m : MetricId) (counts : List Counted) → IsLegalCount counts
        → IsLegalCount (counts ++ refresh_turns m counts) }
    ensures none { (m : MetricId) (counts : List Counted) → IsLegalCount counts
        → pending_of m (counts ++ refresh_turns m counts) ≡ [] }
    ensures number { (m : MetricId) (counts : List Counted) → IsLegalCount counts
        → length (refresh_turns m counts) ≡ turns_due counts m }
{}

/// Nothing waits after the turns of a drain: they may follow, and their number is the sum over the live
/// metrics.
pub fn drain_leaves_none()
    ensures legal { (counts : List Counted) → IsLegalCount counts
        → IsLegalCount (counts ++ drain_turns counts) }
    ensures none { (counts : List Counted) → IsLegalCount counts
        → pending_posts (counts ++ drain_turns counts) ≡ [] }
    ensures number { (counts : List Counted) → IsLegalCount counts
        → length (drain_turns counts) ≡ sum_by (turns_due counts) (live_ids counts) }
{}

/// A commit of prepared work makes of a metric as it is from scratch what it is from scratch with the job's
/// batches behind its own.
pub fn commit_is_from_scratch()
    ensures { (id : MetricId) (done : ℕ) (p : PreparedView) (before : List (List Measure))
        → IsArchivePolicy p.job.policy → IsPrepared p
        → p.job.base ≡ kept_window p.job.policy (accepted_under p.job.policy before)
        → after_commit p (live_from_scratch id p.job.policy done before)
        ≡ live_from_scratch id p.job.policy p.job.upto (before ++ p.job.batches) }
{
    turn_is_from_scratch();
}

/// A commit of what is prepared for a claim's job makes of the claim's metric what it is from scratch behind
/// its `Done`.
pub fn claimed_commit_is_from_scratch()
    ensures { (counts : List Counted) (claim : HeldClaim) (p : PreparedView) → IsLegalCount counts
        → MayProcess counts claim.metric claim.upto
        → IsJobOf claim counts p.job → IsPrepared p
        → metric_from_scratch (counts ++ counted.Done claim.metric claim.upto ∷ []) claim.metric
        ≡ option_map (after_commit p) (metric_from_scratch counts claim.metric) }
{
    turn_is_from_scratch();
}

/// What the disks hold, after each entry that may come to count: a metric more, a post more, a metric after the
/// commit of what was prepared for a claim on it, and a metric less. Each live metric stands in it, as it is from
/// scratch.
pub fn durable_state_grows()
    ensures created { (m : MetricId) (policy : ArchivePolicy) (counts : List Counted) → IsLegalCount counts
        → life_of m counts ≡ None
        → durable (counts ++ counted.Create m policy ∷ []) ≡ record {
          metrics = with_live (live_from_scratch m policy (last_post counts) []) (durable counts).metrics;
          pending = (durable counts).pending;
          next = (durable counts).next;
        } }
    ensures posted { (m : MetricId) (number : ℕ) (measures : List Measure) (counts : List Counted)
        → IsLegalCount counts → MayPost counts number m measures
        → durable (counts ++ counted.Post number m measures ∷ []) ≡ record {
          metrics = (durable counts).metrics;
          pending = (durable counts).pending ++ record { number = number; metric = m; measures = measures } ∷ [];
          next = (durable counts).next + 1;
        } }
    ensures processed { (counts : List Counted) (claim : HeldClaim) (p : PreparedView) → IsLegalCount counts
        → MayProcess counts claim.metric claim.upto
        → IsJobOf claim counts p.job → IsPrepared p
        → durable (counts ++ counted.Done claim.metric claim.upto ∷ []) ≡ record {
          metrics = commit_live claim.metric p (durable counts).metrics;
          pending = filter (λ q. not (is_to claim.metric q && nat_le q.number claim.upto)) (durable counts).pending;
          next = (durable counts).next;
        } }
    ensures dropped { (m : MetricId) (counts : List Counted)
        → durable (counts ++ counted.Drop m ∷ []) ≡ record {
          metrics = without_live m (durable counts).metrics;
          pending = filter (λ q. not (is_to m q)) (durable counts).pending;
          next = (durable counts).next;
        } }
    ensures each { (counts : List Counted) → map (λ l. l.id) (durable counts).metrics ≡ live_ids counts }
    ensures found { (m : MetricId) (counts : List Counted)
        → live_of m (durable counts).metrics ≡ metric_from_scratch counts m }
{
    turn_is_from_scratch();
}

/// Tickets are numbered 1, 2, 3 and so on, so no ticket is given twice.
pub fn tickets_are_numbered()
    ensures number { (sack : ℕ) (h : List Entry) (k : ℕ) (t : Ticket) → IsLegal sack h
        → slice_get (all_tickets h) k ≡ Some t → t ≡ record { sack = sack; number = k + 1 } }
    ensures next { (sack : ℕ) (h : List Entry) → IsLegal sack h → last_ticket h ≡ length (all_tickets h) }
{}

/// A claim is held until it is released, its metric is processed or dropped, or the book breaks; a broken
/// book has none.
pub fn claims_are_held()
    ensures claimed { (h : List Entry) (t : Ticket) (m : MetricId) (upto : ℕ)
        → held_claim (h ++ entries.Claim t m upto ∷ [])
        ≡ Some (record { ticket = t; metric = m; upto = upto }) }
    ensures released { (h : List Entry) (claim : HeldClaim) → held_claim h ≡ Some claim
        → held_claim (h ++ entries.Release claim.ticket ∷ []) ≡ None }
    ensures processed { (h : List Entry) (claim : HeldClaim) (upto : ℕ) → held_claim h ≡ Some claim
        → held_claim (h ++ entries.Counted (counted.Done claim.metric upto) ∷ []) ≡ None }
    ensures dropped { (h : List Entry) (claim : HeldClaim) → held_claim h ≡ Some claim
        → held_claim (h ++ entries.Counted (counted.Drop claim.metric) ∷ []) ≡ None }
    ensures failed { (h : List Entry) (tried : Option Counted) (before after : ℕ)
        → held_claim (h ++ entries.Fault tried before after ∷ []) ≡ None }
    ensures looked { (h : List Entry) (m : Option MetricId)
        → held_claim (h ++ entries.Look m ∷ []) ≡ held_claim h }
    ensures others { (h : List Entry) (claim : HeldClaim) (c : Counted) → held_claim h ≡ Some claim
        → subject_of c ≢ claim.metric
        → held_claim (h ++ entries.Counted c ∷ []) ≡ Some claim }
    ensures posted { (h : List Entry) (number : ℕ) (m : MetricId) (measures : List Measure)
        → held_claim (h ++ entries.Counted (counted.Post number m measures) ∷ []) ≡ held_claim h }
    ensures broken { (sack : ℕ) (h : List Entry) → IsLegal sack h → is_broken h ≡ true → held_claim h ≡ None }
{}

/// While a claim is held, its posts may be done, and a job of it stays one, whatever entries come.
pub fn claimed_work_stays()
    ensures may { (sack : ℕ) (h : List Entry) (claim : HeldClaim) → IsLegal sack h → held_claim h ≡ Some claim
        → MayProcess (kept h) claim.metric claim.upto }
    ensures job { (sack : ℕ) (h : List Entry) (e : Entry) (claim : HeldClaim) (job : JobView) → IsLegal sack h
        → MayComeNext sack h e
        → held_claim h ≡ Some claim → held_claim (h ++ e ∷ []) ≡ Some claim → IsJobOf claim (kept h) job
        → IsJobOf claim (kept (h ++ e ∷ [])) job }
{}

/// What a call adds to a legal history may follow it.
pub fn calls_keep_histories_legal()
    ensures creating { (sack : ℕ) (m : MetricId) (policy : ArchivePolicy) (result : Result (Unit {0}) CreateFault) (before own : List Entry)
        → IsArchivePolicy policy → IsLegal sack before → IsCreating m policy result before own
        → IsLegal sack (before ++ own) }
    ensures dropping { (sack : ℕ) (m : MetricId) (result : Result (Unit {0}) SackFault) (before own : List Entry)
        → IsLegal sack before → IsDropping m result before own → IsLegal sack (before ++ own) }
    ensures posting { (sack : ℕ) (m : MetricId) (measures : List Measure) (result : Result ℕ SackFault) (before own : List Entry)
        → length measures ≤ 50000 → IsLegal sack before → IsPosting m measures result before own
        → IsLegal sack (before ++ own) }
    ensures answering { (sack : ℕ) (m : MetricId) (query : Query) (result : Result (List Row) AnswerFault) (before own : List Entry)
        → IsLegal sack before → IsAnswering m query result before own → IsLegal sack (before ++ own) }
    ensures claiming { (sack : ℕ) (result : Result Claim SackFault) (before own : List Entry)
        → IsLegal sack before → IsClaiming sack result before own → IsLegal sack (before ++ own) }
    ensures committing { (sack : ℕ) (p : PreparedView) (result : Result ℕ CommitFault) (before own : List Entry)
        → IsLegal sack before → IsCommitting p result before own → IsLegal sack (before ++ own) }
    ensures releasing { (sack : ℕ) (ticket : Ticket) (result : Result (Unit {0}) ReleaseFault) (before own : List Entry)
        → IsLegal sack before → IsReleasing ticket result before own → IsLegal sack (before ++ own) }
    ensures refreshing { (sack : ℕ) (m : MetricId) (result : Result ℕ SackFault) (before own : List Entry)
        → IsLegal sack before → IsRefreshing m result before own → IsLegal sack (before ++ own) }
    ensures draining { (sack : ℕ) (result : Result ℕ SackFault) (before own : List Entry)
        → IsLegal sack before → IsDraining result before own → IsLegal sack (before ++ own) }
{}

/// Once a call has answered Ok, at its last entry: a metric is live, or isn't; a batch stands under the number
/// that was given; rows are what grouping from scratch gives; the done number is the one that was given, and no
/// claim is held, or nothing of the metric waits; nothing waits.
pub fn ok_calls_have_done_their_work()
    ensures created { (sack : ℕ) (m : MetricId) (policy : ArchivePolicy) (value : Unit {0}) (before own : List Entry) → IsLegal sack before
        → IsCreating m policy (Ok value) before own → is_live m (kept (before ++ own)) ≡ true }
    ensures dropped { (sack : ℕ) (m : MetricId) (value : Unit {0}) (before own : List Entry)
        → IsLegal sack before
        → IsDropping m (Ok value) before own → is_live m (kept (before ++ own)) ≡ false }
    ensures posted { (sack : ℕ) (m : MetricId) (measures : List Measure) (number : ℕ) (before own : List Entry)
        → IsLegal sack before
        → IsPosting m measures (Ok number) before own
        → Contains (all_posts (kept (before ++ own))) (record { number = number; metric = m; measures = measures }) }
    ensures answered { (sack : ℕ) (m : MetricId) (query : Query) (rows : List Row) (before own : List Entry)
        → IsLegal sack before
        → IsAnswering m query (Ok rows) before own → rows ≡ answer_rows m query (kept (before ++ own)) }
    ensures committed { (sack : ℕ) (p : PreparedView) (done : ℕ) (before own : List Entry) → IsLegal sack before
        → IsCommitting p (Ok done) before own
        → (done_of p.job.metric (kept (before ++ own)) ≡ done) × (held_claim (before ++ own) ≡ None) }
    ensures refreshed { (sack : ℕ) (m : MetricId) (done : ℕ) (before own : List Entry) → IsLegal sack before
        → IsRefreshing m (Ok done) before own
        → (pending_of m (kept (before ++ own)) ≡ []) × (done ≡ done_of m (kept (before ++ own))) }
    ensures drained { (sack : ℕ) (number : ℕ) (before own : List Entry) → IsLegal sack before
        → IsDraining (Ok number) before own → pending_posts (kept (before ++ own)) ≡ [] }
{}
