//! The program's command line, as clap reads it.
ghost use Rattle.std.specs.Prelude.{◌≡◌, false, fold, IfOk};
ghost use Rattle.clap.specs.declared.builder.command.Command.TheViews.{out-Command};
ghost use Rattle.clap.specs.Words.{app_of, new_app, rule_of, shape_of};
ghost use Rattle.command_line.specs.Asking as spec;
ghost use Rattle.command_line.specs.Tables.{rule_at, shape_at, with_argument, with_command};

use crate::command_table::{Argument, COMMANDS, Form, Usage};
use crate::help;
use clap::builder::ValueParser;
use clap::{Arg, ArgAction, Command};
use std::alloc::{AllocError, Global};

/// The program's command line.
pub(crate) fn command<'a>(alloc: Global) -> Result<Command<'a>, AllocError>
    ensures { IfOk result (λ c. app_of c ≡ spec.jt_tool) }
{
    let program = Command::new(alloc, "jt_tool")
        .about("Plays Serial Vector Format programs on a simulated boundary-scan board")
        .after_help(help::ALL)
        .version(help::VERSION);
    with_commands(alloc, program, COMMANDS)
}

/// A command with these commands more.
fn with_commands<'a>(
    alloc: Global,
    command: Command<'a>,
    usages: &[Usage],
) -> Result<Command<'a>, AllocError>
    ensures { IfOk result (λ c. app_of c ≡ fold with_command (app_of command.entry) usages.now) }
{
    let mut command = command;
    for usage in usages {
        command = command.subcommand(command_of(alloc, usage)?)?;
    }
    Ok(command)
}

/// The command of a row.
fn command_of<'a>(alloc: Global, usage: &Usage) -> Result<Command<'a>, AllocError>
    ensures shape { IfOk result (λ c. shape_of c ≡ shape_at usage.now) }
    ensures local { IfOk result (λ c. (out-Command c).has_globals ≡ false) }
{
    let command = titled(alloc, usage);
    with_arguments(alloc, command, usage.arguments)
}

/// A command with what help tells of it, and without arguments.
fn titled<'a>(alloc: Global, usage: &Usage) -> Command<'a>
    ensures app { app_of result ≡ new_app usage.now.name.now }
    ensures local { (out-Command result).has_globals ≡ false }
{
    Command::new(alloc, usage.name)
        .about(usage.about)
        .after_help(usage.more)
}

/// A command with these arguments more.
fn with_arguments<'a>(
    alloc: Global,
    command: Command<'a>,
    arguments: &[Argument],
) -> Result<Command<'a>, AllocError>
    requires { (out-Command command).has_globals ≡ false }
    ensures app { IfOk result (λ c. app_of c ≡ fold with_argument (app_of command.entry) arguments.now) }
    ensures local { IfOk result (λ c. (out-Command c).has_globals ≡ false) }
{
    let mut command = command;
    for argument in arguments {
        command = command.arg(arg_of(alloc, argument))?;
    }
    Ok(command)
}

/// The argument of a row.
fn arg_of<'a>(alloc: Global, argument: &Argument) -> Arg<'a>
    ensures rule { rule_of result ≡ rule_at argument.now }
    ensures local { result.global ≡ false }
{
    let arg = Arg::new(alloc, argument.name)
        .required(argument.required)
        .help(argument.help);
    match argument.form {
        Form::Word => arg.action(ArgAction::Set),
        Form::Flag => arg.long(argument.name).action(ArgAction::SetTrue),
        Form::Value => arg.long(argument.name).action(ArgAction::Set),
        Form::Number(least, most) => arg
            .long(argument.name)
            .action(ArgAction::Set)
            .value_parser(ValueParser::Unsigned(least, most)),
    }
}
