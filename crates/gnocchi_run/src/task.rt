// What a run does.
ghost use Rattle.std.specs.Prelude.{◌≡◌, ◌≤◌, ℕ, IfOk, Err, Some, None};
ghost use Rattle.command_line.specs.Setting.{texts};
ghost use Rattle.front.specs.Plan.{disk_count};
ghost use Rattle.gnocchi_run.specs.Task.{IsTask, sacks_of, start_at, task_of};
ghost use Rattle.gnocchi_run.specs.declared.task.Task.{Task as A_Task};

use command_line::{
    Command, Home, PlanFault, five_disks_a_sack, numbers_are_decimals, read_command,
};
use std::alloc::Global;

/// How a store comes to be open.
#[derive(Clone, Copy, Debug, PartialEq, Eq)]
pub enum Start {
    /// It is found on the disks.
    Found,
    /// It is made first, with this number.
    New { number: u32 },
}

/// What a run does, over a store of so many sacks.
#[derive(Clone, Copy, Debug, PartialEq, Eq)]
pub enum Task {
    /// To make an empty store.
    Create { sacks: u16, number: u32 },
    /// To answer script lines.
    Replay { start: Start, sacks: u16 },
    /// To serve the input as one connection.
    ReplayHttp { start: Start, sacks: u16 },
    /// To count what the store has.
    Check { sacks: u16 },
}

/// What a run does by these words.
pub(crate) fn task_in(alloc: Global, words: &[String]) -> Result<Task, PlanFault>
    ensures ok { IfOk result (λ task. (disks : ℕ) → disks ≡ disk_count (sacks_of task) → IsTask (texts words.now) disks task) }
    ensures only { IfOk result (λ task. (disks : ℕ) (other : A_Task) → IsTask (texts words.now) disks other
        → (other ≡ task) × (disks ≡ disk_count (sacks_of task))) }
    ensures few { IfOk result (λ task. (1 ≤ sacks_of task) × (sacks_of task ≤ 64)) }
    ensures usage { result ≡ Err PlanFault.Usage → (disks : ℕ) (task : A_Task) → IsTask (texts words.now) disks task → ⊥ }
{
    five_disks_a_sack();
    numbers_are_decimals();
    match read_command(alloc, words) {
        Ok(command) => task_by(&command),
        Err(fault) => Err(fault),
    }
}

/// What a run does by this command, which is faulty use of it where there is nothing.
fn task_by(command: &Command) -> Result<Task, PlanFault>
    ensures ok { IfOk result (λ task. task_of command.now ≡ Some task) }
    ensures none { result ≡ Err PlanFault.Usage → task_of command.now ≡ None }
{
    match task_of(command) {
        Some(task) => Ok(task),
        None => Err(PlanFault::Usage),
    }
}

/// What a run does by this command. None where another call does it.
fn task_of(command: &Command) -> Option<Task>
    ensures { result ≡ task_of command.now }
{
    match command {
        Command::Create { sacks, number, .. } => Some(Task::Create {
            sacks: *sacks,
            number: *number,
        }),
        Command::Replay {
            home,
            sacks,
            number,
        } => Some(Task::Replay {
            start: start_at(home, *number),
            sacks: *sacks,
        }),
        Command::ReplayHttp {
            home,
            sacks,
            number,
        } => Some(Task::ReplayHttp {
            start: start_at(home, *number),
            sacks: *sacks,
        }),
        Command::Check { sacks, .. } => Some(Task::Check { sacks: *sacks }),
        Command::Load { .. } | Command::Drill { .. } | Command::Serve { .. } => None,
    }
}

/// A store in memory is made first.
fn start_at(home: &Home, number: u32) -> Start
    ensures { result ≡ start_at home.now number }
{
    match home {
        Home::Memory => Start::New { number },
        Home::Folder(_) => Start::Found,
    }
}

impl Task {
    ghost use Rattle.gnocchi_run.specs.Task.{sacks_of};

    /// How many sacks the store has.
    pub(crate) fn sacks(self) -> u16
        ensures { result ≡ sacks_of self }
    {
        match self {
            Task::Create { sacks, .. }
            | Task::Replay { sacks, .. }
            | Task::ReplayHttp { sacks, .. }
            | Task::Check { sacks } => sacks,
        }
    }
}
