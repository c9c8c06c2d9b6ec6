// The disks of commands.
ghost use Rattle.std.specs.Prelude.{◌≡◌, ◌++◌, true, false, IfOk, OnOk, List, MatchResult, map, string_bytes};
ghost use Rattle.command_line.specs.declared.command.Command.{Command as A_Command};
ghost use Rattle.command_line.specs.declared.plan.Plan.{Plan as A_Plan};
ghost use Rattle.command_line.specs.Command.{IsCommand};
ghost use Rattle.command_line.specs.Plan.{HasPlan, disk_front, folder_front, is_in_memory, plain_plan, plan_of, sack_disk, sack_kinds, server_plan, store_disks};
ghost use Rattle.command_line.specs.Setting.{texts};

use crate::command::{Command, read_command};
use crate::fault::PlanFault;
use crate::home::Home;
use crate::text::Text;
use gno_num::List;
use std::alloc::{AllocError, Global};

/// The disks of a command, and what a server has.
#[derive(Debug, Drop)]
pub struct Plan {
    /// Whether the disks are in memory.
    pub memory: bool,
    /// The names of the disks, one for each.
    pub names: List<Text>,
    /// The address that a server listens on.
    pub listen: Option<Text>,
    /// How many workers a server has; 0 where nothing is served.
    pub workers: u16,
    /// How many connections a server has at a time; 0 where nothing is served.
    pub conns: u16,
}

/// The plan of the command of these words.
pub fn disk_plan(alloc: Global, words: &[String]) -> Result<Plan, PlanFault>
    // What is answered is the plan of the words' command; it is answered, unless memory runs out.
    ensures ok { IfOk result (HasPlan (texts words.now)) }
    ensures only { (plan : A_Plan) → HasPlan (texts words.now) plan
        → MatchResult result (λ found. found ≡ plan) (λ fault. fault ≡ PlanFault.Memory) }
    // Words that are refused are no command.
    ensures usage { result ≡ Err PlanFault.Usage
        → (command : A_Command) → ¬ IsCommand (texts words.now) command }
{
    let command = read_command(alloc, words)?;
    Ok(command.plan(alloc)?)
}

impl Command {
    /// The plan of the command.
    pub fn plan(&self, alloc: Global) -> Result<Plan, AllocError>
        ensures { IfOk result (λ plan. plan ≡ plan_of self.now) }
    {
        match self {
            Command::Create { folder, sacks, .. } => plan_in(alloc, folder, *sacks),
            Command::Replay { home, sacks, .. } => plan_at(alloc, home, *sacks),
            Command::ReplayHttp { home, sacks, .. } => plan_at(alloc, home, *sacks),
            Command::Check { folder, sacks } => plan_in(alloc, folder, *sacks),
            Command::Load { sacks, .. } => plan_at(alloc, &Home::Memory, *sacks),
            Command::Drill { .. } => Ok(plain_plan(true, List::of(Vec::new(alloc)))),
            Command::Serve {
                home,
                sacks,
                listen,
                workers,
                conns,
                ..
            } => server_plan(
                alloc,
                plan_at(alloc, home, *sacks)?,
                listen,
                *workers,
                *conns,
            ),
        }
    }
}

/// A plan of a command that doesn't serve.
fn plain_plan(memory: bool, names: List<Text>) -> Plan
    ensures { result ≡ plain_plan memory names }
{
    Plan {
        memory,
        names,
        listen: None,
        workers: 0,
        conns: 0,
    }
}

/// The plan of a server that has the disks of this one.
fn server_plan(
    alloc: Global,
    plan: Plan,
    listen: &Text,
    workers: u16,
    conns: u16,
) -> Result<Plan, AllocError>
    ensures { IfOk result (λ served. served ≡ server_plan plan.memory plan.names listen.now workers conns) }
{
    let listen = Text::copy_of(alloc, listen.as_str())?;
    Ok(Plan {
        memory: plan.memory,
        names: plan.names,
        listen: Some(listen),
        workers,
        conns,
    })
}

/// The plan of a store in a folder.
fn plan_in(alloc: Global, folder: &Text, sacks: u16) -> Result<Plan, AllocError>
    ensures { IfOk result (λ plan. plan ≡ plain_plan false (store_disks (folder_front folder.now) sacks)) }
{
    let folder = folder.as_str();
    let front = format!(in alloc; "{folder}/")?;
    Ok(plain_plan(false, store_disks(alloc, &front, sacks)?))
}

/// The plan of a store at a place.
fn plan_at(alloc: Global, home: &Home, sacks: u16) -> Result<Plan, AllocError>
    ensures { IfOk result (λ plan. plan
        ≡ plain_plan (is_in_memory home.now) (store_disks (disk_front home.now) sacks)) }
{
    match home {
        Home::Folder(folder) => plan_in(alloc, folder, sacks),
        Home::Memory => Ok(plain_plan(true, store_disks(alloc, "", sacks)?)),
    }
}

/// The disks of a store: two of the index, and five of each sack.
fn store_disks(alloc: Global, front: &str, sacks: u16) -> Result<List<Text>, AllocError>
    ensures { IfOk result (λ names. names ≡ store_disks front.now sacks) }
{
    let mut names = Vec::new(alloc);
    names.reserve(2 + 5 * usize::from(sacks))?;
    names.push(Text::of(format!(in alloc; "{front}index.a")?))?;
    names.push(Text::of(format!(in alloc; "{front}index.b")?))?;
    for sack in 0..sacks {
        push_sack(alloc, front, sack, &mut names)?;
    }
    Ok(List::of(names))
}

/// What the names of a sack's disks end with.
fn sack_kinds() -> &'static [&'static str]
    ensures { map (λ kind. kind.now) result.now ≡ sack_kinds }
{
    &[".in.a", ".in.b", ".shelf.a", ".shelf.b", ".blocks"]
}

/// Adds the disks of a sack.
fn push_sack(alloc: Global, front: &str, sack: u16, names: &mut Vec<Text>) -> Result<(), AllocError>
    ensures { OnOk result (names.new.items
        ≡ names.old.items ++ map (λ kind. sack_disk front.now sack kind) sack_kinds) }
{
    for kind in sack_kinds() {
        names.push(sack_disk(alloc, front, sack, kind)?)?;
    }
    Ok(())
}

/// One disk of a sack.
fn sack_disk(alloc: Global, front: &str, sack: u16, kind: &str) -> Result<Text, AllocError>
    ensures { IfOk result (λ name. name ≡ sack_disk front.now sack kind.now) }
{
    Ok(Text::of(format!(in alloc; "{front}sack-{sack}{kind}")?))
}
