//! The program's commands, made of their tables.
ghost use Rattle.std.specs.Prelude.{IfOk};
ghost use Rattle.clap.specs.Words.{App, with_subcommand};
ghost use Rattle.command_line.specs.Making.{IsLocal, IsLocalArg, rule_in, verb_app};
ghost use Rattle.command_line.specs.Program.{program};

use crate::help::{self, Argument, Form, Verb};
use clap::{Arg, ArgAction, Command, value_parser};
use std::alloc::{AllocError, Global};
use std::mem;

/// An argument of the table.
fn made<'a>(alloc: Global, argument: &Argument) -> Arg<'a>
    ensures { IsLocalArg (rule_in argument.now) result }
{
    let named = Arg::new(alloc, argument.name)
        .help(argument.help)
        .long_help(argument.more);
    match argument.form {
        Form::Word => named.required(true),
        Form::Flag => named.long(argument.name).action(ArgAction::SetTrue),
        Form::Value(value, defaults) => named
            .long(argument.name)
            .value_name(value)
            .default_values(defaults),
        Form::Number(value, defaults) => named
            .long(argument.name)
            .value_name(value)
            .default_values(defaults)
            .value_parser(value_parser!(u32)),
    }
}

/// A command of the table.
pub fn command_of<'a>(alloc: Global, verb: &Verb) -> Result<Command<'a>, AllocError>
    ensures { IfOk result (IsLocal (verb_app verb.now)) }
{
    let mut grown = Command::new(alloc, verb.name)
        .about(verb.about)
        .before_help(verb.example)
        .after_long_help(verb.more);
    for argument in verb.arguments {
        // by `else` and not by `?`, whose calls are dear to prove at a type as large as this
        let Ok(more) = grown.arg(made(alloc, argument)) else {
            return Err(AllocError);
        };
        grown = more;
    }
    Ok(grown)
}

/// Adds a command of the table, if the other could be made.
fn with_command<'a>(
    alloc: Global,
    command: Result<Command<'a>, AllocError>,
    verb: &Verb,
) -> Result<Command<'a>, AllocError>
    ensures { (app : App) → IfOk command.entry (IsLocal app)
        → IfOk result (IsLocal (with_subcommand app (verb_app verb.now).top)) }
{
    let Ok(command) = command else {
        return Err(AllocError);
    };
    let Ok(other) = command_of(alloc, verb) else {
        // dropped by a call, which is one step, and not field by field
        mem::drop(command);
        return Err(AllocError);
    };
    command.subcommand(other)
}

/// The program's commands.
pub fn command<'a>(alloc: Global) -> Result<Command<'a>, AllocError>
    ensures { IfOk result (IsLocal program) }
{
    let bare = Command::new(alloc, "minimate")
        .about(help::PROGRAM)
        .after_help(help::PROGRAM_NOTES)
        .after_long_help(help::PROGRAM_MORE)
        .version("0.1.0")
        .subcommand_required(true);
    let solving = with_command(alloc, Ok(bare), &help::SOLVE);
    let finding = with_command(alloc, solving, &help::KEYS);
    let searching = with_command(alloc, finding, &help::TREE);
    let telling = with_command(alloc, searching, &help::SOLUTION);
    let checking = with_command(alloc, telling, &help::CHECK);
    let verifying = with_command(alloc, checking, &help::VERIFY);
    let certifying = with_command(alloc, verifying, &help::CERTIFY);
    let moving = with_command(alloc, certifying, &help::MOVES);
    let showing = with_command(alloc, moving, &help::SHOW);
    let playing = with_command(alloc, showing, &help::AFTER);
    with_command(alloc, playing, &help::BATCH)
}
