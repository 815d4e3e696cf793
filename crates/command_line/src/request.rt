//! What the command line asks for.

ghost use Rattle.std.specs.Prelude.{◌≡◌, map, IfOk, option_map};
ghost use Rattle.clap.specs.Words.{FailsBy, fault_of, found_of, rows_of, subcommand_rows_of};
ghost use Rattle.command_line.specs.Asking as spec;
ghost use Rattle.command_line.specs.View.{action_of, asked_of, server_view, waves_view};

use crate::commands::command;
use clap::{ArgMatches, Error};
use std::alloc::Global;

/// The bytes that are taken of one connection at most where nothing is said of them.
const USUAL_BYTES: u64 = 1_000_000_000;
/// The host that is played on where none is named: this machine.
const THIS_HOST: &str = "127.0.0.1";

/// What is done with a text, or with a board.
#[derive(Clone, Copy)]
pub enum Task<'a> {
    /// The text is played, and where `bytes` is set the bytes sent are told too. Where `all` is set it is played to the
    /// end, and all bits that fail are told. Where `explain` is set, it is told of each bit that fails why, and of a
    /// refusal where it lies. Where `vcd` is given, the waves of the play are drawn.
    Play {
        bytes: bool,
        all: bool,
        explain: bool,
        vcd: Option<Waves<'a>>,
    },
    /// The text is only checked. Where `explain` is set, it is told of a refusal where it lies.
    Check {
        explain: bool,
    },
    /// The text is played over a connection of the program with itself; `all` and `explain` as for `Play`.
    Loop {
        all: bool,
        explain: bool,
    },
    /// The board is served to clients; `explain` as for `Check`.
    Serve {
        serving: Serving,
        explain: bool,
    },
    /// The text is played on a server; `all` and `explain` as for `Play`.
    Connect {
        server: Server<'a>,
        all: bool,
        explain: bool,
    },
    /// The board is described; `explain` as for `Check`.
    Describe {
        explain: bool,
    },
    /// It is told which faults of the board the text would miss; where `listed` is set, every way of every fault.
    /// `explain` as for `Check`.
    Cover {
        listed: bool,
        explain: bool,
    },
    /// It is told which faults of the board give just what a log says of a play of the text. The log comes from the
    /// file of this name, or from standard input; `explain` as for `Check`.
    Diagnose {
        log: Option<&'a str>,
        explain: bool,
    },
}

/// How the waves of a play are drawn.
#[derive(Clone, Copy)]
pub struct Waves<'a> {
    /// The file that they are drawn into.
    pub file: &'a str,
    /// Whether they show which bits are wanted, and which of them fail.
    pub fails: bool,
    /// Whether they show the names of instructions, which those without strings do not.
    pub names: bool,
    /// Whether they show the TDO of each device.
    pub tdos: bool,
    /// Whether they show what each pin of a named net drives.
    pub drives: bool,
    /// Whether they are without strings.
    pub plain: bool,
}

/// How a board is served.
#[derive(Clone, Copy)]
pub struct Serving {
    /// The port of this machine that clients connect to, 1 to 65,535.
    pub port: u16,
    /// The most bytes that are taken of one connection, 0 to 1,000,000,000,000.
    pub at_most: u64,
    /// The connections that are served, one after another, 1 to 1,000,000.
    pub connections: u32,
    /// The seconds that a read or a write waits for the client at most, 1 to 86,400; `None` for as long as it takes.
    pub timeout: Option<u32>,
}

/// A server that a text is played on.
#[derive(Clone, Copy)]
pub struct Server<'a> {
    /// Its name or address.
    pub host: &'a str,
    /// Its port, 1 to 65,535.
    pub port: u16,
    /// The seconds that a call waits for the server at most, 1 to 86,400; `None` for as long as it takes.
    pub timeout: Option<u32>,
}

/// What the command line asks for.
#[derive(Clone, Copy)]
pub struct Request<'a> {
    /// The file of the text, `None` for standard input.
    pub svf: Option<&'a str>,
    /// The board file, `None` for one bare device.
    pub board: Option<&'a str>,
    /// What is done.
    pub task: Task<'a>,
}

/// Reads the words of a command line, of which the first is the program's name. Without any more it is `play --bytes`.
///
/// The command line is one of
/// - `play [FILE] [--board BOARD] [--bytes] [--all] [--explain] [--vcd FILE] [--vcd-fails] [--vcd-names] [--vcd-tdo]
///   [--vcd-drives] [--vcd-plain]`,
/// - `check [FILE] [--board BOARD] [--explain]`,
/// - `loop [FILE] [--board BOARD] [--all] [--explain]`,
/// - `serve --board BOARD --port PORT [--at-most BYTES] [--connections COUNT] [--timeout SECONDS] [--explain]`,
/// - `connect [FILE] --port PORT [--host HOST] [--timeout SECONDS] [--all] [--explain]`,
/// - `describe --board BOARD [--explain]`,
/// - `cover [FILE] --board BOARD [--list] [--explain]`,
/// - `diagnose FILE --board BOARD [--log LOG] [--explain]`.
///
/// Refused are words that none of these takes, and a number that is not in its range; a call for help or for the
/// version comes as such an error too.
pub fn parse<'a>(alloc: Global, words: &'a [&'a str]) -> Result<Request<'a>, Error>
    // What the words ask for.
    ensures asked { IfOk result (λ r. asked_of r ≡ spec.asked (map (λ w. w.now) words.now)) }
    // Words without a fault are taken unless memory runs out, and those with one are refused by one of its kinds.
    ensures refused { FailsBy (fault_of spec.jt_tool (map (λ w. w.now) words.now)) result }
{
    let command = command(alloc)?;
    let matches = command.try_get_matches_from(words)?;
    Ok(request_of(&matches))
}

fn request_of<'a>(matches: &ArgMatches<'a>) -> Request<'a>
    ensures { asked_of result ≡ spec.asked_by (subcommand_rows_of matches.now) }
{
    match matches.subcommand() {
        Some((name, found)) => Request {
            svf: found.get_str("svf"),
            board: found.get_str("board"),
            task: task_of(name, found),
        },
        None => Request {
            svf: None,
            board: None,
            task: Task::Play {
                bytes: true,
                all: false,
                explain: false,
                vcd: None,
            },
        },
    }
}

/// What the subcommand of a name does.
fn task_of<'a>(name: &str, found: &ArgMatches<'a>) -> Task<'a>
    ensures { action_of result ≡ spec.task_of name.now (rows_of (found_of found.now)) }
{
    match name {
        "check" => Task::Check {
            explain: is_given(found, "explain"),
        },
        "loop" => Task::Loop {
            all: is_given(found, "all"),
            explain: is_given(found, "explain"),
        },
        "serve" => Task::Serve {
            serving: serving_of(found),
            explain: is_given(found, "explain"),
        },
        "connect" => Task::Connect {
            server: server_of(found),
            all: is_given(found, "all"),
            explain: is_given(found, "explain"),
        },
        "describe" => Task::Describe {
            explain: is_given(found, "explain"),
        },
        "cover" => Task::Cover {
            listed: is_given(found, "list"),
            explain: is_given(found, "explain"),
        },
        "diagnose" => Task::Diagnose {
            log: log_of(found),
            explain: is_given(found, "explain"),
        },
        _ => Task::Play {
            bytes: is_given(found, "bytes"),
            all: is_given(found, "all"),
            explain: is_given(found, "explain"),
            vcd: waves_of(found),
        },
    }
}

/// How waves are drawn, where their file is named.
fn waves_of<'a>(found: &ArgMatches<'a>) -> Option<Waves<'a>>
    ensures { option_map waves_view result ≡ spec.waves_of (rows_of (found_of found.now)) }
{
    match found.get_str("vcd") {
        Some(file) => Some(Waves {
            file,
            fails: is_given(found, "vcd-fails"),
            names: has_names(found),
            tdos: is_given(found, "vcd-tdo"),
            drives: is_given(found, "vcd-drives"),
            plain: is_given(found, "vcd-plain"),
        }),
        None => None,
    }
}

/// Whether waves show the names of instructions: those without strings have none.
fn has_names(found: &ArgMatches<'_>) -> bool
    ensures { result ≡ spec.has_names (rows_of (found_of found.now)) }
{
    is_given(found, "vcd-names") && !is_given(found, "vcd-plain")
}

/// The file of the log, where it is named.
fn log_of<'a>(found: &ArgMatches<'a>) -> Option<&'a str>
    ensures { option_map (λ s. s.now) result ≡ spec.log_of (rows_of (found_of found.now)) }
{
    found.get_str("log")
}

fn serving_of(found: &ArgMatches<'_>) -> Serving
    ensures { result ≡ spec.serving_of (rows_of (found_of found.now)) }
{
    Serving {
        port: port_of(found),
        at_most: bytes_of(found),
        connections: connections_of(found),
        timeout: timeout_of(found),
    }
}

fn server_of<'a>(found: &ArgMatches<'a>) -> Server<'a>
    ensures { server_view result ≡ spec.server_of (rows_of (found_of found.now)) }
{
    Server {
        host: host_of(found),
        port: port_of(found),
        timeout: timeout_of(found),
    }
}

fn host_of<'a>(found: &ArgMatches<'a>) -> &'a str
    ensures { result.now ≡ spec.host_of (rows_of (found_of found.now)) }
{
    match found.get_str("host") {
        Some(host) => host,
        None => THIS_HOST,
    }
}

/// The port; 0 where none is given, which no command line is taken without.
fn port_of(found: &ArgMatches<'_>) -> u16
    ensures { result ≡ spec.port_of (rows_of (found_of found.now)) }
{
    match found.get_one::<u16>("port") {
        Some(port) => port,
        None => 0,
    }
}

fn bytes_of(found: &ArgMatches<'_>) -> u64
    ensures { result ≡ spec.at_most_of (rows_of (found_of found.now)) }
{
    match found.get_one::<u64>("at-most") {
        Some(bytes) => bytes,
        None => USUAL_BYTES,
    }
}

fn connections_of(found: &ArgMatches<'_>) -> u32
    ensures { result ≡ spec.connections_of (rows_of (found_of found.now)) }
{
    match found.get_one::<u32>("connections") {
        Some(connections) => connections,
        None => 1,
    }
}

fn timeout_of(found: &ArgMatches<'_>) -> Option<u32>
    ensures { result ≡ spec.timeout_of (rows_of (found_of found.now)) }
{
    found.get_one::<u32>("timeout")
}

/// Whether a flag is given: its text is then `true`, and else `false`.
fn is_given(found: &ArgMatches<'_>, flag: &str) -> bool
    ensures { result ≡ spec.is_given flag.now (rows_of (found_of found.now)) }
{
    match found.get_str(flag) {
        Some(text) => text == "true",
        None => false,
    }
}
