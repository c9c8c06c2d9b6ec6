// The top call.
ghost use Rattle.std.specs.Prelude.{◌≡◌, ◌≢◌, ◌⊎◌, ◌^◌, ◌<◌, ◌≤◌, ℕ, List, [], Some, length};
ghost use Rattle.std.specs.Io.KnownBytes.{Appends, Keeps};
ghost use Rattle.gno_num.specs.Faults.{Rose};
ghost use Rattle.command_line.specs.Setting.{texts};
ghost use Rattle.front.specs.Opening.{AreDamaged};
ghost use Rattle.front.specs.Looking.{HaveStore};
ghost use Rattle.front.specs.Plan.{disk_count};
ghost use Rattle.rest_script.specs.Lines.{AreLines, AreUnfinished};
ghost use Rattle.gnocchi_run.specs.Available.{AnswersLinesAvailable, AnswersMessagesAvailable, AreReady, AreReadyFor, IsUnrisen, NoneFailed};
ghost use Rattle.gnocchi_run.specs.Ending.{IsOrStarved, IsUnfaulted};
ghost use Rattle.gnocchi_run.specs.declared.task.Start.{Start as A_Start};
ghost use Rattle.gnocchi_run.specs.Doing.{DoesNothing, Performs};
ghost use Rattle.gnocchi_run.specs.Opened.{faults_of_disks};
ghost use Rattle.gnocchi_run.specs.Task.{IsTask, sacks_of};
ghost use Rattle.gnocchi_run.specs.declared.task.Task.{Task as A_Task};

use crate::checking::check;
use crate::creating::create;
use crate::laws::working_disks_answer;
use crate::replaying::{replay, replay_http};
use crate::task::{Task, task_in};
use command_line::{PlanFault, Status};
use front::stores_are_not_damaged;
use gno_disk::Disk;
use gno_io::{Sink, Source};
use std::alloc::Global;
use std::mem;

/// Does what the words ask over the disks of a store, which are given back in their order: `create` makes an empty store,
/// `replay` answers the source as script lines and `replay-http` as one connection, and `check` counts what the store has.
/// Words that break the rules or ask for something else, and another number of disks than the plan's, are answered `Usage`.
pub fn run<S: Source, K: Sink, D: Disk + Drop>(
    alloc: Global,
    words: &[String],
    source: &mut S,
    sink: &mut K,
    disks: &mut Vec<D>,
) -> Status
    // What the words ask was done, unless there was no memory to read them.
    ensures does { (task : A_Task) → IsTask (texts words.now) (length disks.old.items) task
        → Performs D.Disk task disks.old.items disks.new.items (S.left source.old) (S.left source.new) (K.taken sink.old) (K.taken sink.new) result
        ⊎ ((result ≡ Status.Memory) × DoesNothing disks.old.items disks.new.items (S.left source.old) (S.left source.new) (K.taken sink.old) (K.taken sink.new)) }

    // Faulty use is answered exactly where they ask for nothing that a run does over so many disks.
    ensures usage { result ≡ Status.Usage → (task : A_Task) → IsTask (texts words.now) (length disks.old.items) task → ⊥ }
    ensures valid { ((task : A_Task) → IsTask (texts words.now) (length disks.old.items) task → ⊥)
        → ((result ≡ Status.Usage) ⊎ (result ≡ Status.Memory)) × DoesNothing disks.old.items disks.new.items (S.left source.old) (S.left source.new) (K.taken sink.old) (K.taken sink.new) }

    // A script of whole lines is answered to its end, and one that goes on behind its lines is refused, unless a fault or want
    // of memory ended it.
    ensures complete { (start : A_Start) (sacks : ℕ) (input : List ℕ) (lines : List (List ℕ)) → IsTask (texts words.now) (length disks.old.items) (Task.Replay start sacks) → S.left source.old ≡ Some input → AreLines input lines → length input < 2 ^ 40
        → IsUnfaulted result → IsOrStarved result Status.Done }
    ensures refused { (start : A_Start) (sacks : ℕ) (input : List ℕ) (lines : List (List ℕ)) → IsTask (texts words.now) (length disks.old.items) (Task.Replay start sacks) → S.left source.old ≡ Some input → AreUnfinished input lines → length input < 2 ^ 40
        → IsUnfaulted result → IsOrStarved result Status.Input }

    // Over disks that are ready, where no count of faults rises, no fault is told.
    ensures unfaulted { (task : A_Task) → IsTask (texts words.now) (length disks.old.items) task → AreReadyFor D.Disk task disks.old.items
        → NoneFailed D.Disk disks.old.items disks.new.items → IsUnrisen (S.faults source.old) (S.faults source.new) → IsUnrisen (K.faults sink.old) (K.faults sink.new)
        → IsUnfaulted result }

    // Over disks that are ready, and of which none fails, no line and no message is answered 503.
    ensures available { (start : A_Start) (sacks : ℕ) → IsTask (texts words.now) (length disks.old.items) (Task.Replay start sacks)
        → AreReady D.Disk start sacks disks.old.items → NoneFailed D.Disk disks.old.items disks.new.items
        → AnswersLinesAvailable (S.left source.old) (S.left source.new) (K.taken sink.old) (K.taken sink.new) }
    ensures available_http { (start : A_Start) (sacks : ℕ) → IsTask (texts words.now) (length disks.old.items) (Task.ReplayHttp start sacks)
        → AreReady D.Disk start sacks disks.old.items → NoneFailed D.Disk disks.old.items disks.new.items
        → AnswersMessagesAvailable (S.left source.old) (S.left source.new) (K.taken sink.old) (K.taken sink.new) }

    // A fault comes only where the count of its object rose in this call.
    ensures read_cause { result ≡ Status.Read → Rose (S.faults source.old) (S.faults source.new) }
    ensures write_cause { result ≡ Status.Write → Rose (K.faults sink.old) (K.faults sink.new) }
    ensures disk_cause { result ≡ Status.Disk → Rose (faults_of_disks D.Disk disks.old.items) (faults_of_disks D.Disk disks.new.items) }

    // Damage stands where it is told, and a store that is found where one was to be made was there.
    ensures damage_cause { (task : A_Task) (disk at : ℕ) → IsTask (texts words.now) (length disks.old.items) task
        → result ≡ Status.Damaged disk at → AreDamaged D.Disk (sacks_of task) disks.old.items (record { disk = disk; at = at }) }
    ensures exists_cause { result ≡ Status.Exists → HaveStore D.Disk disks.old.items }

    // All disks are given back.
    ensures disks { length disks.new.items ≡ length disks.old.items }
{
    working_disks_answer::<D>();
    stores_are_not_damaged::<D>();
    let task = match task_in(alloc, words) {
        Ok(task) => task,
        Err(PlanFault::Usage) => return Status::Usage,
        Err(PlanFault::Memory) => return Status::Memory,
    };
    if disks.len() != 2 + 5 * usize::from(task.sacks()) {
        return Status::Usage;
    }
    let given = mem::replace(disks, Vec::new(alloc));
    let (back, status) = perform(alloc, task, given, source, sink);
    *disks = back;
    status
}

/// Does a task over these disks.
fn perform<S: Source, K: Sink, D: Disk>(
    alloc: Global,
    task: Task,
    disks: Vec<D>,
    source: &mut S,
    sink: &mut K,
) -> (Vec<D>, Status)
    requires some { 1 ≤ sacks_of task }
    requires few { sacks_of task ≤ 64 }
    requires planned { length disks.items ≡ disk_count (sacks_of task) }
    ensures performs { Performs D.Disk task disks.items result.0.items (S.left source.old) (S.left source.new) (K.taken sink.old) (K.taken sink.new) result.1 }
    ensures complete { (start : A_Start) (sacks : ℕ) (input : List ℕ) (lines : List (List ℕ)) → task ≡ Task.Replay start sacks → S.left source.old ≡ Some input → AreLines input lines → length input < 2 ^ 40
        → IsUnfaulted result.1 → IsOrStarved result.1 Status.Done }
    ensures refused { (start : A_Start) (sacks : ℕ) (input : List ℕ) (lines : List (List ℕ)) → task ≡ Task.Replay start sacks → S.left source.old ≡ Some input → AreUnfinished input lines → length input < 2 ^ 40
        → IsUnfaulted result.1 → IsOrStarved result.1 Status.Input }
    ensures kept { length result.0.items ≡ length disks.items }
    ensures used { result.1 ≢ Status.Usage }
    ensures read_cause { result.1 ≡ Status.Read → Rose (S.faults source.old) (S.faults source.new) }
    ensures write_cause { result.1 ≡ Status.Write → Rose (K.faults sink.old) (K.faults sink.new) }
{
    match task {
        Task::Create { sacks, number } => create(alloc, disks, sacks, number, sink),
        Task::Replay { start, sacks } => replay(alloc, disks, start, sacks, source, sink),
        Task::ReplayHttp { start, sacks } => replay_http(alloc, disks, start, sacks, source, sink),
        Task::Check { sacks } => check(alloc, disks, sacks, sink),
    }
}
