// What settings give for each option.
ghost use Rattle.std.specs.Prelude.{◌≡◌, ◌≤◌, IfOk, IfSome, OnErr, length};
ghost use Rattle.std.specs.Option.{option_map, option_to_list};
ghost use Rattle.command_line.specs.Fault.{IsReading};
ghost use Rattle.command_line.specs.Given.{comes_to, conns_in, count_in, folder_in, given_for, home_in, listen_in, number_in, sacks_in, seed_in, workers_in};
ghost use Rattle.command_line.specs.Number.{number_within};
ghost use Rattle.command_line.specs.Setting.{settings_of};

use crate::fault::PlanFault;
use crate::flag::{Flag, is_flag};
use crate::home::Home;
use crate::number::number_within;
use crate::setting::Chosen;
use crate::text::Text;
use std::alloc::Global;

/// A value was given twice.
#[derive(Clone, Copy)]
pub struct Twice;

/// The value that is given for an option, if there is one.
pub fn given_for<'a>(flag: Flag, chosen: &[Chosen<'a>]) -> Result<Option<&'a str>, Twice>
    ensures once { IfOk result (λ value. given_for flag (settings_of chosen.now)
        ≡ option_to_list (option_map (λ v. v.now) value)) }
    ensures twice { OnErr result (2 ≤ length (given_for flag (settings_of chosen.now))) }
{
    let mut value = None;
    for setting in chosen {
        if is_flag(setting.flag, flag) {
            if value.is_some() {
                return Err(Twice);
            }
            value = Some(setting.value);
        }
    }
    Ok(value)
}

/// The number that is given for an option, or the default.
fn number_for(
    flag: Flag,
    least: u64,
    most: u64,
    default: Option<u64>,
    chosen: &[Chosen],
) -> Option<u64>
    ensures value { result
        ≡ comes_to (number_within least most) default (given_for flag (settings_of chosen.now)) }
    ensures limit { IfSome default (λ number. number ≤ most)
        → IfSome result (λ number. number ≤ most) }
{
    match given_for(flag, chosen) {
        Ok(Some(word)) => number_within(least, most, word),
        Ok(None) => default,
        Err(Twice) => None,
    }
}

/// How many sacks the store has.
pub fn sacks_in(chosen: &[Chosen]) -> Option<u16>
    ensures { result ≡ sacks_in (settings_of chosen.now) }
{
    Some(number_for(Flag::Sacks, 1, 64, Some(4), chosen)? as u16)
}

/// The number of the store.
pub fn number_in(chosen: &[Chosen]) -> Option<u32>
    ensures { result ≡ number_in (settings_of chosen.now) }
{
    Some(number_for(Flag::Number, 0, 4_294_967_295, Some(1), chosen)? as u32)
}

/// What a generator starts with.
pub fn seed_in(chosen: &[Chosen]) -> Option<u64>
    ensures { result ≡ seed_in (settings_of chosen.now) }
{
    number_for(Flag::Seed, 0, u64::MAX, None, chosen)
}

/// How much is generated.
pub fn count_in(chosen: &[Chosen]) -> Option<u16>
    ensures { result ≡ count_in (settings_of chosen.now) }
{
    Some(number_for(Flag::Count, 1, 20_000, None, chosen)? as u16)
}

/// How many workers a server has.
pub fn workers_in(chosen: &[Chosen]) -> Option<u16>
    ensures { result ≡ workers_in (settings_of chosen.now) }
{
    Some(number_for(Flag::Workers, 1, 16, Some(2), chosen)? as u16)
}

/// How many connections a server has at a time.
pub fn conns_in(chosen: &[Chosen]) -> Option<u16>
    ensures { result ≡ conns_in (settings_of chosen.now) }
{
    Some(number_for(Flag::Conns, 1, 64, Some(8), chosen)? as u16)
}

/// The folder of the store.
pub fn folder_in(alloc: Global, chosen: &[Chosen]) -> Result<Text, PlanFault>
    ensures { IsReading (folder_in (settings_of chosen.now)) result }
{
    match given_for(Flag::Store, chosen) {
        Ok(Some(folder)) => Ok(Text::copy_of(alloc, folder)?),
        _ => Err(PlanFault::Usage),
    }
}

/// The address that a server listens on.
pub fn listen_in(alloc: Global, chosen: &[Chosen]) -> Result<Text, PlanFault>
    ensures { IsReading (listen_in (settings_of chosen.now)) result }
{
    match given_for(Flag::Listen, chosen) {
        Ok(Some(address)) => Ok(Text::copy_of(alloc, address)?),
        Ok(None) => Ok(Text::copy_of(alloc, "127.0.0.1:8041")?),
        Err(Twice) => Err(PlanFault::Usage),
    }
}

/// Where the store is.
pub fn home_in(alloc: Global, chosen: &[Chosen]) -> Result<Home, PlanFault>
    ensures { IsReading (home_in (settings_of chosen.now)) result }
{
    match (
        given_for(Flag::Store, chosen),
        given_for(Flag::Memory, chosen),
    ) {
        (Ok(Some(folder)), Ok(None)) => Ok(Home::Folder(Text::copy_of(alloc, folder)?)),
        (Ok(None), Ok(Some(_))) => Ok(Home::Memory),
        _ => Err(PlanFault::Usage),
    }
}
