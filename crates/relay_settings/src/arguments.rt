//! The arguments of the command line.

use crate::config::Config;
use crate::counts::{
    COUNT_ALONE, COUNT_KINDS, COUNT_LEAST, COUNT_MOST, COUNT_SPIN, COUNT_TOTAL, Count,
};
use crate::fault::RelayFault;
use crate::keys::keys_of;
use crate::limits::{MOST as MOST_SECONDS, TimeLimits, USUAL as USUAL_LIMITS};
use crate::named::{Named, named_by};
use crate::proxies::Proxies;
use crate::servers::Servers;
use crate::share::Share;
use crate::table::{FLAGS, SETTINGS};
use clap::{Arg, ArgAction, ArgMatches, Command};
use relay_logins::Keys;
use socket_places::{Keeping, Place, USUAL as USUAL_KEEPING};
use std::alloc::{AllocError, Global};
use std::fs::Files;
use std::net::SocketAddr;

/// What the arguments ask for.
#[derive(Clone, Copy)]
pub struct Asked {
    pub listen: SocketAddr,
    pub servers: Servers,
    /// Who says for whom it comes.
    pub proxies: Proxies,
    /// The most connections that equal logins share.
    pub most: usize,
    /// The most connections of logins that can't be shared.
    pub alone: usize,
    /// The most connections of all logins together, and kinds of logins that share them.
    pub total: usize,
    pub kinds: usize,
    /// So many connections of equal logins are kept however idle they are.
    pub least: usize,
    /// Which fields of a login part groups.
    pub group: Keys,
    /// For how long an application keeps the connection that it is lent.
    pub share: Share,
    pub limits: TimeLimits,
    /// For so many microseconds behind a report it doesn't wait for the next one, but asks for it.
    pub spin: u64,
    /// How the system looks after what it is connected to.
    pub keeping: Keeping,
    /// Whether it ends with its standard input.
    pub ends_with_input: bool,
    /// Whether each application and each connection has a line on standard error.
    pub is_logged: bool,
    /// Whether a line is an object of JSON.
    pub is_json: bool,
    /// Whether both sides are judged.
    pub is_judged: bool,
}

/// What the arguments ask for, where it tells what it does, which servers are named, and the path of the socket at which
/// names are asked: empty where none is given.
#[derive(Drop)]
pub struct Settings {
    pub asked: Asked,
    pub stats: Option<Place>,
    pub named: Vec<Named>,
    pub names: String,
}

/// Reads the arguments, the program's name too, and the file that they name. An argument stands over the file.
pub fn read_arguments<R: Files>(
    rt: &R,
    alloc: Global,
    arguments: &[String],
) -> Result<Settings, RelayFault> {
    let matches = parser(alloc)?.try_get_matches_from(arguments)?;
    let config = match matches.get_str("config") {
        Some(path) => Config::read(rt, alloc, path)?,
        None => Config::none(alloc),
    };
    let mut named = Vec::new(alloc);
    let asked = asked_by(alloc, &matches, &config, &mut named)?;
    let names = names_of(alloc, &matches)?;
    if let (Some(first), true) = (named.first(), names.is_empty()) {
        return Err(RelayFault::Unnamed(first.host.clone()?));
    }
    Ok(Settings {
        asked,
        stats: stats_of(alloc, &matches, &config)?,
        named,
        names,
    })
}

/// Where names are asked.
fn names_of(alloc: Global, matches: &ArgMatches) -> Result<String, RelayFault> {
    let Some(argument) = matches.get_str("names") else {
        return Ok(String::new(alloc));
    };
    match argument.strip_prefix("unix:") {
        Some(path) if !path.is_empty() => Ok(String::from_str(alloc, path)?),
        _ => Err(RelayFault::Names(String::from_str(alloc, argument)?)),
    }
}

fn asked_by(
    alloc: Global,
    matches: &ArgMatches,
    config: &Config,
    named: &mut Vec<Named>,
) -> Result<Asked, RelayFault> {
    let listen = address_of(alloc, "LISTEN", matches.get_str("LISTEN").unwrap_or(""))?;
    Ok(Asked {
        listen,
        servers: servers_of(
            alloc,
            listen,
            matches.get_strs("SERVER").unwrap_or(&[]),
            named,
        )?,
        proxies: proxies_of(alloc, matches, config)?,
        most: count_of(alloc, matches, config, &COUNT_MOST)?,
        alone: count_of(alloc, matches, config, &COUNT_ALONE)?,
        total: count_of(alloc, matches, config, &COUNT_TOTAL)?,
        kinds: count_of(alloc, matches, config, &COUNT_KINDS)?,
        least: count_of(alloc, matches, config, &COUNT_LEAST)?,
        group: keys_of(alloc, matches, config)?,
        share: share_of(alloc, matches, config)?,
        spin: count_of(alloc, matches, config, &COUNT_SPIN)? as u64,
        keeping: keeping_of(alloc, matches, config)?,
        limits: limits_of(alloc, matches, config)?,
        ends_with_input: matches.get_flag("until-input-ends"),
        is_logged: is_set(matches, config, "log")? || is_set(matches, config, "log-json")?,
        is_json: is_set(matches, config, "log-json")?,
        is_judged: is_set(matches, config, "judge")?,
    })
}

/// Whether an argument that takes none is there, or the file has it.
fn is_set(matches: &ArgMatches, config: &Config, name: &'static str) -> Result<bool, RelayFault> {
    Ok(config.flag(name)? || matches.get_flag(name))
}

/// Where it tells what it does.
fn stats_of(
    alloc: Global,
    matches: &ArgMatches,
    config: &Config,
) -> Result<Option<Place>, RelayFault> {
    let set = config.text("stats")?;
    let argument = matches.get_str("stats");
    let Some(text) = argument.or(set) else {
        return Ok(None);
    };
    if let Some(path) = text.strip_prefix("unix:") {
        return Ok(Some(Place::Unix(String::from_str(alloc, path)?)));
    }
    let address = match argument {
        Some(argument) => address_of(alloc, "--stats", argument)?,
        None => address_in(config, text)?,
    };
    Ok(Some(Place::Tcp(address)))
}

fn keeping_of(alloc: Global, matches: &ArgMatches, config: &Config) -> Result<Keeping, RelayFault> {
    let usual = USUAL_KEEPING;
    Ok(Keeping {
        silence: seconds_of(alloc, matches, config, "keepalive", usual.silence)?,
        unacknowledged: seconds_of(
            alloc,
            matches,
            config,
            "unacknowledged",
            usual.unacknowledged,
        )?,
    })
}

fn limits_of(
    alloc: Global,
    matches: &ArgMatches,
    config: &Config,
) -> Result<TimeLimits, RelayFault> {
    let usual = USUAL_LIMITS;
    Ok(TimeLimits {
        login: seconds_of(alloc, matches, config, "login", usual.login)?,
        wait: seconds_of(alloc, matches, config, "wait", usual.wait)?,
        cancel: seconds_of(alloc, matches, config, "cancel", usual.cancel)?,
        idle: seconds_of(alloc, matches, config, "idle", usual.idle)?,
        life: seconds_of(alloc, matches, config, "life", usual.life)?,
        hold: seconds_of(alloc, matches, config, "hold", usual.hold)?,
        transaction: seconds_of(alloc, matches, config, "transaction", usual.transaction)?,
        request: seconds_of(alloc, matches, config, "request", usual.request)?,
        drain: seconds_of(alloc, matches, config, "drain", usual.drain)?,
        check: seconds_of(alloc, matches, config, "check", usual.check)?,
        away: seconds_of(alloc, matches, config, "away", usual.away)?,
        judge_again: seconds_of(alloc, matches, config, "judge-again", usual.judge_again)?,
        half: seconds_of(alloc, matches, config, "half-closed", usual.half)?,
    })
}

fn seconds_of(
    alloc: Global,
    matches: &ArgMatches,
    config: &Config,
    name: &'static str,
    usual: u64,
) -> Result<u64, RelayFault> {
    let set = config.number(name, 0, MOST_SECONDS)?;
    let Some(argument) = matches.get_str(name) else {
        return Ok(set.unwrap_or(usual));
    };
    match argument.parse::<u64>() {
        Ok(seconds) if seconds <= MOST_SECONDS => Ok(seconds),
        _ => Err(RelayFault::Seconds(name, String::from_str(alloc, argument)?)),
    }
}

/// The address that an argument is, which stands for this.
fn address_of(alloc: Global, what: &'static str, argument: &str) -> Result<SocketAddr, RelayFault> {
    match argument.parse::<SocketAddr>() {
        Ok(address) => Ok(address),
        Err(_) => Err(RelayFault::Address(what, String::from_str(alloc, argument)?)),
    }
}

/// The address that the file has for what is told.
fn address_in(config: &Config, text: &str) -> Result<SocketAddr, RelayFault> {
    match text.parse::<SocketAddr>() {
        Ok(address) => Ok(address),
        Err(_) => Err(config.fault(
            "stats",
            "an IP address, a colon and a port are wanted, or unix:PATH",
        )?),
    }
}

/// The servers, the preferred one first, of a relay that listens there. Those that are named are appended.
fn servers_of(
    alloc: Global,
    listen: SocketAddr,
    arguments: &[&str],
    named: &mut Vec<Named>,
) -> Result<Servers, RelayFault> {
    let mut servers = Servers::none();
    for argument in arguments.iter() {
        let Some(server) = servers.add() else {
            return Err(RelayFault::Servers);
        };
        match argument.parse::<SocketAddr>() {
            Ok(address) if is_reached_at(listen, address) => {
                return Err(RelayFault::Itself(address));
            }
            Ok(address) => {
                let _ = servers.set(server, &[address.ip()], address.port());
            }
            Err(_) => match named_by(alloc, server, argument)? {
                Some(name) => add(named, name)?,
                None => return Err(RelayFault::Server(String::from_str(alloc, argument)?)),
            },
        }
    }
    Ok(servers)
}

fn add(named: &mut Vec<Named>, name: Named) -> Result<(), AllocError> {
    named.push(name)?;
    Ok(())
}

/// The proxies that say for whom they come.
fn proxies_of(alloc: Global, matches: &ArgMatches, config: &Config) -> Result<Proxies, RelayFault> {
    let set = config.text("proxy")?;
    let Some(argument) = matches.get_str("proxy") else {
        return match set {
            None => Ok(Proxies::none()),
            Some(text) => match Proxies::read(text) {
                Some(proxies) => Ok(proxies),
                None => Err(config.fault("proxy", "up to four IP addresses are wanted")?),
            },
        };
    };
    match Proxies::read(argument) {
        Some(proxies) => Ok(proxies),
        None => Err(RelayFault::Proxies(String::from_str(alloc, argument)?)),
    }
}

/// For how long an application keeps the connection that it is lent.
fn share_of(alloc: Global, matches: &ArgMatches, config: &Config) -> Result<Share, RelayFault> {
    let set = match config.text("share")? {
        None => Share::Session,
        Some(text) => match Share::read(text) {
            Some(share) => share,
            None => return Err(config.fault("share", "session or transaction is wanted")?),
        },
    };
    let Some(argument) = matches.get_str("share") else {
        return Ok(set);
    };
    match Share::read(argument) {
        Some(share) => Ok(share),
        None => Err(RelayFault::Share(String::from_str(alloc, argument)?)),
    }
}

/// Whether who listens at the one address is reached at the other one. Who connects to no address in particular
/// connects to the own machine.
pub fn is_reached_at(listen: SocketAddr, address: SocketAddr) -> bool {
    let (own, other) = (listen.ip().to_canonical(), address.ip().to_canonical());
    if listen.port() != address.port() {
        return false;
    }
    if other.is_unspecified() {
        return own.is_unspecified() || own.is_loopback();
    }
    own == other || own.is_unspecified() && other.is_loopback()
}

fn count_of(
    alloc: Global,
    matches: &ArgMatches,
    config: &Config,
    count: &Count,
) -> Result<usize, RelayFault> {
    let set = config.number(count.name, count.least as u64, count.most as u64)?;
    let Some(argument) = matches.get_str(count.name) else {
        return Ok(match set {
            Some(set) => set as usize,
            None => count.usual,
        });
    };
    match argument.parse::<usize>() {
        Ok(found) if found >= count.least && found <= count.most => Ok(found),
        _ => {
            let argument = String::from_str(alloc, argument)?;
            Err(RelayFault::Count(count.name, count.least, count.most, count.unit, argument))
        }
    }
}

fn parser<'a>(alloc: Global) -> Result<Command<'a>, AllocError> {
    let mut parser = addresses(alloc)?;
    for (name, help) in SETTINGS.iter() {
        parser = parser.arg(setting(alloc, name, help))?;
    }
    for (name, help) in FLAGS.iter() {
        parser = parser.arg(flag(alloc, name, help))?;
    }
    Ok(parser)
}

/// The arguments that stand first.
fn addresses<'a>(alloc: Global) -> Result<Command<'a>, AllocError> {
    let parser = Command::new(alloc, "tdsrelay")
        .version("0.1.0")
        .about("Lets many applications share few connections to a server of TDS (docs/RELAY.md)")
        .arg(
            Arg::new(alloc, "LISTEN").required(true).help(
                "where applications connect to, as 127.0.0.1:1434; port 0 is a free one",
            ),
        )?;
    parser.arg(
        Arg::new(alloc, "SERVER")
            .required(true)
            .action(ArgAction::Append)
            .num_args(1..)
            .help(
                "the server, as 127.0.0.1:1433 or sql.example:1433; others behind it are dialed where it fails",
            ),
    )
}

/// An argument with a value behind it.
fn setting<'a>(alloc: Global, name: &'a str, help: &'a str) -> Arg<'a> {
    Arg::new(alloc, name)
        .long(name)
        .help(help)
        .action(ArgAction::Set)
}

fn flag<'a>(alloc: Global, name: &'a str, help: &'a str) -> Arg<'a> {
    Arg::new(alloc, name)
        .long(name)
        .help(help)
        .action(ArgAction::SetTrue)
}
