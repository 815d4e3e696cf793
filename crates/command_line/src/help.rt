//! What the calls for help tell behind the options.

/// The number of this version of the program, and what it plays by.
pub(crate) const VERSION: &str = "1.0 (Serial Vector Format revision E, IEEE Std 1149.1-2001)";

pub(crate) const ALL: &str = "\
Without a command, jt_tool reads a program from standard input and prints its bytes and its verdict.

Exit status:
  0  pass: accepted, every expected bit came, nothing missed, a fault found
  1  fail: a bit differs, a fault is missed, or none is found
  2  refused: the command line, the program, the board, or a log
  3  lost: a connection, an input or an output
  4  out of memory

Examples:
  jt_tool check test.svf
  jt_tool play test.svf --board board.toml --explain
  jt_tool cover test.svf --board board.toml
  jt_tool connect test.svf --port 5555 --all | jt_tool diagnose test.svf --board board.toml

`jt_tool COMMAND --help` tells the options of a command. The pages are README.md and docs/.";

pub(crate) const PLAY: &str = "\
Examples:
  jt_tool play test.svf --board board.toml
  jt_tool play test.svf --board board.toml --all --explain
  jt_tool play test.svf --board board.toml --vcd test.vcd --vcd-fails

Pages: docs/svf.md, docs/board_file.md, docs/output.md, docs/waves.md";

pub(crate) const CHECK: &str = "\
Example:
  jt_tool check test.svf --explain

Pages: docs/svf.md, docs/output.md";

pub(crate) const LOOP: &str = "\
Example:
  jt_tool loop test.svf --board board.toml

Pages: docs/protocol.md, docs/output.md";

pub(crate) const SERVE: &str = "\
Example:
  jt_tool serve --board board.toml --port 5555 --timeout 60

Pages: docs/protocol.md, docs/board_file.md";

pub(crate) const CONNECT: &str = "\
Example:
  jt_tool connect test.svf --port 5555 --all --explain

Pages: docs/adapter.md, docs/protocol.md, docs/output.md";

pub(crate) const DESCRIBE: &str = "\
Example:
  jt_tool describe --board board.toml

Pages: docs/board_file.md, docs/bsdl.md, docs/output.md";

pub(crate) const COVER: &str = "\
Example:
  jt_tool cover test.svf --board board.toml --list

Page: docs/coverage.md";

pub(crate) const DIAGNOSE: &str = "\
Examples:
  jt_tool connect test.svf --port 5555 --all | jt_tool diagnose test.svf --board board.toml
  jt_tool diagnose test.svf --board board.toml --log test.log

Page: docs/coverage.md";
