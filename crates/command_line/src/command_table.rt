//! The commands of the program with their arguments, and what help tells of each.

use crate::help;

/// A port is a number from 1.
const LEAST_PORT: u64 = 1;
/// It has 16 bits.
const MOST_PORT: u64 = 65_535;
/// The most bytes that may be taken of one connection.
const MOST_BYTES: u64 = 1_000_000_000_000;
/// The most connections that are served one after another.
const MOST_CONNECTIONS: u64 = 1_000_000;
/// The most seconds that a call may wait for the peer: a day.
const MOST_SECONDS: u64 = 86_400;

/// A command.
#[derive(Clone, Copy)]
pub(crate) struct Usage {
    /// Its name.
    pub(crate) name: &'static str,
    /// What help tells of it in front of the options.
    pub(crate) about: &'static str,
    /// What help tells of it behind them.
    pub(crate) more: &'static str,
    /// What may stand behind its name.
    pub(crate) arguments: &'static [Argument],
}

/// An argument of a command.
#[derive(Clone, Copy)]
pub(crate) struct Argument {
    /// Its name.
    pub(crate) name: &'static str,
    /// How it is written.
    pub(crate) form: Form,
    /// Whether it must be given.
    pub(crate) required: bool,
    /// What help tells of it.
    pub(crate) help: &'static str,
}

/// How an argument is written.
#[derive(Clone, Copy)]
pub(crate) enum Form {
    /// A word by itself.
    Word,
    /// `--NAME`.
    Flag,
    /// `--NAME VALUE`.
    Value,
    /// `--NAME NUMBER`, of a number from the first of these to the second.
    Number(u64, u64),
}

const SVF: Argument = Argument {
    name: "svf",
    form: Form::Word,
    required: false,
    help: "The file of the program; standard input where none is named",
};

const NAMED_SVF: Argument = Argument {
    name: "svf",
    form: Form::Word,
    required: true,
    help: "The file of the program",
};

const BOARD: Argument = Argument {
    name: "board",
    form: Form::Value,
    required: false,
    help: "The board file; one bare device where none is named",
};

const NAMED_BOARD: Argument = Argument {
    name: "board",
    form: Form::Value,
    required: true,
    help: "The board file",
};

const BYTES: Argument = Argument {
    name: "bytes",
    form: Form::Flag,
    required: false,
    help: "Also prints the bytes sent",
};

const ALL: Argument = Argument {
    name: "all",
    form: Form::Flag,
    required: false,
    help: "Plays to the end, and prints the first 256 bits that fail and how many do",
};

const EXPLAIN: Argument = Argument {
    name: "explain",
    form: Form::Flag,
    required: false,
    help: "Also tells where a refusal lies, or the name that it speaks of",
};

const REASONS: Argument = Argument {
    name: "explain",
    form: Form::Flag,
    required: false,
    help: "Also tells why a bit fails, and where a refusal lies",
};

const VCD: Argument = Argument {
    name: "vcd",
    form: Form::Value,
    required: false,
    help: "The file that the waves of the play are drawn into",
};

const VCD_FAILS: Argument = Argument {
    name: "vcd-fails",
    form: Form::Flag,
    required: false,
    help: "The waves also show which bits are wanted, and which of them fail",
};

const VCD_NAMES: Argument = Argument {
    name: "vcd-names",
    form: Form::Flag,
    required: false,
    help: "The waves also show the names of instructions, unless they are without strings",
};

const VCD_TDO: Argument = Argument {
    name: "vcd-tdo",
    form: Form::Flag,
    required: false,
    help: "The waves also show the TDO of each device",
};

const VCD_DRIVES: Argument = Argument {
    name: "vcd-drives",
    form: Form::Flag,
    required: false,
    help: "The waves also show what each pin of a named net drives, weak levels as l and h",
};

const VCD_PLAIN: Argument = Argument {
    name: "vcd-plain",
    form: Form::Flag,
    required: false,
    help: "The waves are without strings, for viewers that know none",
};

const PORT: Argument = Argument {
    name: "port",
    form: Form::Number(LEAST_PORT, MOST_PORT),
    required: true,
    help: "The port, 1 to 65535",
};

const AT_MOST: Argument = Argument {
    name: "at-most",
    form: Form::Number(0, MOST_BYTES),
    required: false,
    help: "The most bytes that are taken of one connection; 1000000000 where none are named",
};

const CONNECTIONS: Argument = Argument {
    name: "connections",
    form: Form::Number(1, MOST_CONNECTIONS),
    required: false,
    help: "The connections that are served, one after another; 1 where none are named",
};

const TIMEOUT: Argument = Argument {
    name: "timeout",
    form: Form::Number(1, MOST_SECONDS),
    required: false,
    help: "The seconds after which a peer that says nothing is lost; never where none are named",
};

const HOST: Argument = Argument {
    name: "host",
    form: Form::Value,
    required: false,
    help: "The server's name or address; 127.0.0.1 where none is named",
};

const LIST: Argument = Argument {
    name: "list",
    form: Form::Flag,
    required: false,
    help: "Tells every way of every fault, and by which bit it is caught first",
};

const LOG: Argument = Argument {
    name: "log",
    form: Form::Value,
    required: false,
    help: "The file of what a play printed; standard input where none is named",
};

/// The commands, in the order of help.
pub(crate) const COMMANDS: &[Usage] = &[
    Usage {
        name: "play",
        about: "Plays a program in process, and prints the verdict and the board's report",
        more: help::PLAY,
        arguments: &[
            SVF, BOARD, BYTES, ALL, REASONS, VCD, VCD_FAILS, VCD_NAMES, VCD_TDO, VCD_DRIVES,
            VCD_PLAIN,
        ],
    },
    Usage {
        name: "check",
        about: "Tells whether a program is accepted, its statements and steps, and which instructions stand for BYPASS",
        more: help::CHECK,
        arguments: &[SVF, BOARD, EXPLAIN],
    },
    Usage {
        name: "loop",
        about: "Plays a program over a socket of this machine, and prints the verdict and the board's report",
        more: help::LOOP,
        arguments: &[SVF, BOARD, ALL, REASONS],
    },
    Usage {
        name: "serve",
        about: "Serves a board to clients on 127.0.0.1, by OpenOCD's remote_bitbang protocol",
        more: help::SERVE,
        arguments: &[NAMED_BOARD, PORT, AT_MOST, CONNECTIONS, TIMEOUT, EXPLAIN],
    },
    Usage {
        name: "connect",
        about: "Plays a program on a server of OpenOCD's remote_bitbang protocol, and prints the verdict",
        more: help::CONNECT,
        arguments: &[SVF, PORT, HOST, TIMEOUT, ALL, REASONS],
    },
    Usage {
        name: "describe",
        about: "Prints a board's devices, instructions, cells and nets, one fact a line",
        more: help::DESCRIBE,
        arguments: &[NAMED_BOARD, EXPLAIN],
    },
    Usage {
        name: "cover",
        about: "Tells which single faults of a board's nets a program would miss",
        more: help::COVER,
        arguments: &[SVF, NAMED_BOARD, LIST, EXPLAIN],
    },
    Usage {
        name: "diagnose",
        about: "Tells which single faults of a board's nets give just the bits that a log of a play has",
        more: help::DIAGNOSE,
        arguments: &[NAMED_SVF, NAMED_BOARD, LOG, EXPLAIN],
    },
];
