// What is true of runs. This does nothing when it runs.
ghost use Rattle.std.specs.Prelude.{ℕ, List, Option};
ghost use Rattle.command_line.specs.declared.status.Status.{Status};
ghost use Rattle.front.specs.SoloView.{StandsForBooks};
ghost use Rattle.gnocchi_run.specs.declared.task.Start.{Start};
ghost use Rattle.gnocchi_run.specs.Available.{AnswersLinesAvailable, AnswersMessagesAvailable, AreReady, NoneFailed};
ghost use Rattle.gnocchi_run.specs.Doing.{AnswersConnection, AnswersScript, RunsOver};

use front::{disks_that_work_show_no_fault, ready_disks_are_opened};
use front_api::what_failed_is_seen;
use gno_disk::Disk;
use rest_api::{requests_go_on, without_faults_available};
use rest_script::{lines_go_on, without_faults_answered};

/// Over disks that are ready, and of which none fails, no line and no message is answered 503.
pub(crate) fn working_disks_answer<D: Disk>()
    ensures script { (start : Start) (sacks : ℕ) (old new : List D) (left_before left_after taken_before taken_after : Option (List ℕ)) (status : Status)
        → RunsOver D.Disk start sacks (AnswersScript (StandsForBooks D.Disk)) old new left_before left_after taken_before taken_after status
        → AreReady D.Disk start sacks old → NoneFailed D.Disk old new → AnswersLinesAvailable left_before left_after taken_before taken_after }
    ensures connection { (start : Start) (sacks : ℕ) (old new : List D) (left_before left_after taken_before taken_after : Option (List ℕ)) (status : Status)
        → RunsOver D.Disk start sacks (AnswersConnection (StandsForBooks D.Disk)) old new left_before left_after taken_before taken_after status
        → AreReady D.Disk start sacks old → NoneFailed D.Disk old new → AnswersMessagesAvailable left_before left_after taken_before taken_after }
{
    disks_that_work_show_no_fault::<D>();
    ready_disks_are_opened::<D>();
    what_failed_is_seen();
    lines_go_on();
    without_faults_answered();
    requests_go_on();
    without_faults_available();
}
