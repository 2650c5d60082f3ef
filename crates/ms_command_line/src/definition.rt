//! The definition of the command line: a row for each command, in which each name, range and default stands once.

ghost use Rattle.std.specs.Prelude.{◌≡◌, IfOk, false, map};
ghost use Rattle.clap.specs.Words.{rule_of};
ghost use Rattle.ms_command_line.specs.Commands.{HasCommands, Is, app_of_command, mswasm, number_rule, option_rule, place_rule};
ghost use Rattle.ms_command_line.specs.refinement.Rows.{command_said, number_said, option_said};

use clap::builder::ValueParser;
use clap::{Arg, Command};
use std::alloc::{AllocError, Global};

/// The option `--name N`, of which N is a number from `least` to `most`; `default` stands for N where it isn't given.
#[derive(Clone, Copy)]
pub struct NumberOption {
    pub name: &'static str,
    pub least: u64,
    pub most: u64,
    pub default: &'static str,
}

/// A word that has to be a number from `least` to `most`.
#[derive(Clone, Copy)]
pub struct NumberPlace {
    pub name: &'static str,
    pub least: u64,
    pub most: u64,
}

/// A command, the words that have to follow it, in their order, those of them behind the others that have to be numbers, and its
/// options.
#[derive(Clone, Copy)]
pub struct CommandRow {
    pub name: &'static str,
    pub places: &'static [&'static str],
    pub numbers: &'static [NumberPlace],
    pub options: &'static [NumberOption],
}

/// The program's name.
const PROGRAM: &str = "mswasm";

/// The file that a command reads.
pub const FILE: &str = "FILE";

/// The file that a command writes.
pub const OUT: &str = "OUT";

/// The file of a job.
pub const JOB: &str = "JOB";

/// What the random numbers of `stress` begin with.
pub const SEED: NumberPlace = NumberPlace {
    name: "SEED",
    least: 1,
    most: 2_147_483_646,
};

/// How many of them `stress` takes.
pub const COUNT: NumberPlace = NumberPlace {
    name: "COUNT",
    least: 1,
    most: 100_000,
};

/// How many steps a run may take.
pub const BUDGET: NumberOption = NumberOption {
    name: "budget",
    least: 0,
    most: 1_000_000_000_000,
    default: "1000000",
};

/// The default of `BUDGET` as a number.
pub const DEFAULT_BUDGET: u64 = 1_000_000;

/// How many bytes the segment memory has.
pub const MEMORY: NumberOption = NumberOption {
    name: "memory",
    least: 16,
    most: 1_073_741_824,
    default: "1048576",
};

/// The default of `MEMORY` as a number.
pub const DEFAULT_MEMORY: u32 = 1_048_576;

/// Runs the module in a file.
pub const EXEC: CommandRow = CommandRow {
    name: "exec",
    places: &[FILE],
    numbers: &[],
    options: &[BUDGET, MEMORY],
};

/// Runs the modules and the tasks that a job names.
pub const RUN: CommandRow = CommandRow {
    name: "run",
    places: &[JOB],
    numbers: &[],
    options: &[],
};

/// Validates the module in a file.
pub const CHECK: CommandRow = CommandRow {
    name: "check",
    places: &[FILE],
    numbers: &[],
    options: &[],
};

/// Writes a module in the binary format.
pub const ASM: CommandRow = CommandRow {
    name: "asm",
    places: &[FILE, OUT],
    numbers: &[],
    options: &[],
};

/// Writes a module in the text format.
pub const DIS: CommandRow = CommandRow {
    name: "dis",
    places: &[FILE, OUT],
    numbers: &[],
    options: &[],
};

/// Compiles a file of C, and writes its module in the binary format.
pub const COMPILE: CommandRow = CommandRow {
    name: "compile",
    places: &[FILE, OUT],
    numbers: &[],
    options: &[],
};

/// Judges the trace in a file.
pub const JUDGE: CommandRow = CommandRow {
    name: "judge",
    places: &[FILE],
    numbers: &[],
    options: &[MEMORY],
};

/// Runs a program that allocates and frees at random.
pub const STRESS: CommandRow = CommandRow {
    name: "stress",
    places: &[],
    numbers: &[SEED, COUNT],
    options: &[],
};

/// The commands, in the order of their usage lines.
const COMMANDS: [CommandRow; 8] = [EXEC, RUN, CHECK, ASM, DIS, COMPILE, JUDGE, STRESS];

/// The command line of the program.
pub fn command_line<'a>(alloc: Global) -> Result<Command<'a>, AllocError>
    ensures { IfOk result (Is mswasm) }
{
    let program = Command::new(alloc, PROGRAM)
        .subcommand_required(true)
        .disable_help_subcommand(true);
    with_commands(alloc, program, &COMMANDS)
}

fn with_commands<'a>(
    alloc: Global,
    mut program: Command<'a>,
    rows: &[CommandRow],
) -> Result<Command<'a>, AllocError>
    ensures { IfOk result (HasCommands (map command_said rows.now) program.entry) }
{
    for row in rows {
        program = program.subcommand(command_of(alloc, *row)?)?;
    }
    Ok(program)
}

fn command_of<'a>(alloc: Global, row: CommandRow) -> Result<Command<'a>, AllocError>
    ensures { IfOk result (Is (app_of_command (command_said row))) }
{
    let mut command = Command::new(alloc, row.name);
    for place in row.places {
        command = command.arg(place_arg(alloc, place))?;
    }
    for number in row.numbers {
        command = command.arg(number_arg(alloc, *number))?;
    }
    for option in row.options {
        command = command.arg(option_arg(alloc, *option))?;
    }
    Ok(command)
}

fn place_arg<'a>(alloc: Global, name: &'a str) -> Arg<'a>
    ensures rule { rule_of result ≡ place_rule name.entry.now }
    ensures local { result.global ≡ false }
{
    Arg::new(alloc, name).required(true)
}

fn number_arg<'a>(alloc: Global, place: NumberPlace) -> Arg<'a>
    ensures rule { rule_of result ≡ number_rule (number_said place) }
    ensures local { result.global ≡ false }
{
    Arg::new(alloc, place.name)
        .required(true)
        .value_parser(ValueParser::unsigned(place.least, place.most))
}

fn option_arg<'a>(alloc: Global, option: NumberOption) -> Arg<'a>
    ensures rule { rule_of result ≡ option_rule (option_said option) }
    ensures local { result.global ≡ false }
{
    Arg::new(alloc, option.name)
        .long(option.name)
        .value_parser(ValueParser::unsigned(option.least, option.most))
        .default_value(option.default)
}
