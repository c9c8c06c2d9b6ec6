// Commands from what was chosen.
ghost use Rattle.std.specs.Prelude.{◌≡◌};
ghost use Rattle.command_line.specs.Command.{command_from, of_three};
ghost use Rattle.command_line.specs.Fault.{IsReading};
ghost use Rattle.command_line.specs.Given.{home_in, number_in, sacks_in};
ghost use Rattle.command_line.specs.Make.{site};
ghost use Rattle.command_line.specs.Setting.{settings_of};

use crate::command::Command;
use crate::fault::PlanFault;
use crate::given::{
    conns_in, count_in, folder_in, home_in, listen_in, number_in, sacks_in, seed_in, workers_in,
};
use crate::home::Home;
use crate::setting::Chosen;
use crate::verb::Verb;
use std::alloc::Global;

/// A store: where it is, how many sacks it has, and its number.
#[derive(Drop)]
pub struct Site {
    pub home: Home,
    pub sacks: u16,
    pub number: u32,
}

/// The command that a verb and what was chosen make.
pub fn make_command(alloc: Global, verb: Verb, chosen: &[Chosen]) -> Result<Command, PlanFault>
    ensures { IsReading (command_from verb (settings_of chosen.now)) result }
{
    match verb {
        Verb::Create => create(alloc, chosen),
        Verb::Replay => replay(alloc, chosen),
        Verb::ReplayHttp => replay_http(alloc, chosen),
        Verb::Check => check(alloc, chosen),
        Verb::Load => load(chosen),
        Verb::Drill => drill(chosen),
        Verb::Serve => serve(alloc, chosen),
    }
}

fn create(alloc: Global, chosen: &[Chosen]) -> Result<Command, PlanFault>
    ensures { IsReading (command_from Verb.Create (settings_of chosen.now)) result }
{
    let folder = folder_in(alloc, chosen)?;
    let Some(sacks) = sacks_in(chosen) else {
        return Err(PlanFault::Usage);
    };
    let Some(number) = number_in(chosen) else {
        return Err(PlanFault::Usage);
    };
    Ok(Command::Create {
        folder,
        sacks,
        number,
    })
}

/// The store that was chosen.
fn site_in(alloc: Global, chosen: &[Chosen]) -> Result<Site, PlanFault>
    ensures { IsReading (of_three site (home_in (settings_of chosen.now)) (sacks_in (settings_of chosen.now))
        (number_in (settings_of chosen.now))) result }
{
    let home = home_in(alloc, chosen)?;
    let Some(sacks) = sacks_in(chosen) else {
        return Err(PlanFault::Usage);
    };
    let Some(number) = number_in(chosen) else {
        return Err(PlanFault::Usage);
    };
    Ok(Site {
        home,
        sacks,
        number,
    })
}

fn replay(alloc: Global, chosen: &[Chosen]) -> Result<Command, PlanFault>
    ensures { IsReading (command_from Verb.Replay (settings_of chosen.now)) result }
{
    let Site {
        home,
        sacks,
        number,
    } = site_in(alloc, chosen)?;
    Ok(Command::Replay {
        home,
        sacks,
        number,
    })
}

fn replay_http(alloc: Global, chosen: &[Chosen]) -> Result<Command, PlanFault>
    ensures { IsReading (command_from Verb.ReplayHttp (settings_of chosen.now)) result }
{
    let Site {
        home,
        sacks,
        number,
    } = site_in(alloc, chosen)?;
    Ok(Command::ReplayHttp {
        home,
        sacks,
        number,
    })
}

fn check(alloc: Global, chosen: &[Chosen]) -> Result<Command, PlanFault>
    ensures { IsReading (command_from Verb.Check (settings_of chosen.now)) result }
{
    let folder = folder_in(alloc, chosen)?;
    let Some(sacks) = sacks_in(chosen) else {
        return Err(PlanFault::Usage);
    };
    Ok(Command::Check { folder, sacks })
}

fn load(chosen: &[Chosen]) -> Result<Command, PlanFault>
    ensures { IsReading (command_from Verb.Load (settings_of chosen.now)) result }
{
    let Some(seed) = seed_in(chosen) else {
        return Err(PlanFault::Usage);
    };
    let Some(count) = count_in(chosen) else {
        return Err(PlanFault::Usage);
    };
    let Some(sacks) = sacks_in(chosen) else {
        return Err(PlanFault::Usage);
    };
    Ok(Command::Load { seed, count, sacks })
}

fn drill(chosen: &[Chosen]) -> Result<Command, PlanFault>
    ensures { IsReading (command_from Verb.Drill (settings_of chosen.now)) result }
{
    let Some(seed) = seed_in(chosen) else {
        return Err(PlanFault::Usage);
    };
    let Some(count) = count_in(chosen) else {
        return Err(PlanFault::Usage);
    };
    Ok(Command::Drill { seed, count })
}

fn serve(alloc: Global, chosen: &[Chosen]) -> Result<Command, PlanFault>
    ensures { IsReading (command_from Verb.Serve (settings_of chosen.now)) result }
{
    let Site {
        home,
        sacks,
        number,
    } = site_in(alloc, chosen)?;
    let listen = listen_in(alloc, chosen)?;
    let Some(workers) = workers_in(chosen) else {
        return Err(PlanFault::Usage);
    };
    let Some(conns) = conns_in(chosen) else {
        return Err(PlanFault::Usage);
    };
    Ok(Command::Serve {
        home,
        sacks,
        number,
        listen,
        workers,
        conns,
    })
}
