//! What a user is told where the words are no command. `clap` lays the text out, and decides nothing about the words.

use clap::{Arg, Command};
use salus_commands::{COMMANDS, CommandHelp};
use std::alloc::{AllocError, Global};

fn argument(alloc: Global, name: &'static str) -> Arg<'static> {
    Arg::new(alloc, name).required(true)
}

/// The command of one name, with its arguments.
fn subcommand(alloc: Global, help: &CommandHelp) -> Result<Command<'static>, AllocError> {
    let mut command = Command::new(alloc, help.name)
        .about(help.about)
        .disable_help_flag(true);
    for name in help.arguments {
        command = command.arg(argument(alloc, name))?;
    }
    Ok(command)
}

/// The program with a command for each of the table.
fn program(alloc: Global) -> Result<Command<'static>, AllocError> {
    let mut program = Command::new(alloc, "salus")
        .about("A replicated block store: runs a schedule, and prints what its client gets")
        .subcommand_required(true)
        .disable_help_flag(true)
        .disable_help_subcommand(true);
    for help in &COMMANDS {
        program = program.subcommand(subcommand(alloc, help)?)?;
    }
    Ok(program)
}

/// The usage of one command and an example, a line each.
fn put_example(alloc: Global, text: &mut String, help: &CommandHelp) -> Result<(), AllocError> {
    let name = format!(in alloc; "salus {}", help.name)?;
    let mut command = subcommand(alloc, help)?.bin_name(name.as_str())?;
    text.push_str("\n")?;
    text.push_str(command.render_usage()?.as_str())?;
    text.push_str("\n    ")?;
    text.push_str(help.example)?;
    text.push_str("\n")
}

/// The program's help, then the usage of each command with an example.
pub fn usage_text(alloc: Global) -> Result<String, AllocError> {
    let mut text = program(alloc)?.render_help()?;
    for help in &COMMANDS {
        put_example(alloc, &mut text, help)?;
    }
    Ok(text)
}
