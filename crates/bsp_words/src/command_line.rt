//! The command line, as `clap` reads it: made of the rows of the commands and of their arguments.

ghost use Rattle.std.specs.Prelude.{◌≡◌, ◌++◌, ◌∷◌, [], IfOk, IsOkAnd, OnOk, Some, codes, false, map, pos};
ghost use Rattle.clap.specs.Simple.{on_top};
ghost use Rattle.clap.specs.declared.builder.value_parser.ValueParser.TheVariants.{Signed};
ghost use Rattle.clap.specs.declared.builder.texts.Texts.TheVariants.{One};
ghost use Rattle.clap.specs.Words.{app_of, new_app, rule_of};
ghost use Rattle.clap.specs.declared.builder.command.Command.TheViews.{out-Command as fields_of};
ghost use Rattle.bsp_words.specs.CommandLine.{needs_subcommand, office, office_shapes, word_rule};
ghost use Rattle.bsp_words.specs.Commands.{rule_at, shape_at};
ghost use Rattle.bsp_words.specs.Filling.{of_one, rules_in, shapes_in};

use crate::commands::{Argument, CommandRow, Form, book_commands, file_commands, text_commands};
use clap::builder::ValueParser;
use clap::{Arg, ArgAction, Command};
use std::alloc::{AllocError, Global};

/// The version of the program.
const VERSION: &str = "1.0.0";

/// What reads a number from the least to the most.
fn numbers<'a>(least: u32, most: u32) -> ValueParser<'a>
    ensures { result ≡ Signed (pos least) (pos most) }
{
    clap::value_parser!(u32).range(i64::from(least)..=i64::from(most))
}

/// A word with the name and the help of a row.
fn word<'a>(alloc: Global, row: &Argument) -> Arg<'a>
    ensures rule { rule_of result ≡ word_rule row.now.id.now row.now.required }
    ensures local { result.global ≡ false }
{
    Arg::new(alloc, row.id)
        .help(row.help)
        .required(row.required)
}

/// The option `--ID VALUE` in place of a word.
fn named<'a>(arg: Arg<'a>, id: &'a str, value: &'a str) -> Arg<'a>
    ensures { result ≡ record arg.entry { long = Some id.entry; val_names = One value.entry } }
{
    arg.long(id).value_name(value)
}

/// Such an option with a number from the least to the most.
fn numbered<'a>(arg: Arg<'a>, id: &'a str, value: &'a str, least: u32, most: u32) -> Arg<'a>
    ensures { result ≡ record arg.entry { long = Some id.entry; val_names = One value.entry; value_parser = Some (Signed (pos least) (pos most)) } }
{
    named(arg, id, value).value_parser(numbers(least, most))
}

/// The argument of a row.
fn argument<'a>(alloc: Global, row: &Argument) -> Arg<'a>
    ensures rule { rule_of result ≡ rule_at row.now }
    ensures local { result.global ≡ false }
{
    let arg = word(alloc, row);
    match row.form {
        Form::Word => arg,
        Form::Flag => arg.long(row.id).action(ArgAction::SetTrue),
        Form::Named(value) => named(arg, row.id, value),
        Form::Repeated(value) => named(arg, row.id, value).action(ArgAction::Append),
        Form::Number { value, least, most } => numbered(arg, row.id, value, least, most),
        Form::Limit {
            value,
            least,
            most,
            default,
        } => numbered(arg, row.id, value, least, most).default_value(default),
    }
}

/// Adds an item to a list.
fn push<T: Drop>(items: &mut Vec<T>, item: T) -> Result<(), AllocError>
    ensures { OnOk result (items.new.items ≡ items.old.items ++ item ∷ []) }
{
    items.push(item)?;
    Ok(())
}

/// Adds an item to a list, unless it could not be made.
fn push_made<T: Drop>(items: &mut Vec<T>, item: Result<T, AllocError>) -> Result<(), AllocError>
    ensures { OnOk result (IsOkAnd item (λ made. items.new.items ≡ items.old.items ++ made ∷ [])) }
{
    push(items, item?)
}

/// Adds the argument of each row.
fn push_arguments<'a>(
    alloc: Global,
    arguments: &mut Vec<Arg<'a>>,
    rows: &[Argument],
) -> Result<(), AllocError>
    ensures { OnOk result (rules_in arguments.new.items ≡ rules_in arguments.old.items ++ of_one (map rule_at rows.now)) }
{
    for row in rows {
        push(arguments, argument(alloc, row))?;
    }
    Ok(())
}

/// The command of a row, without its arguments.
fn titled<'a>(alloc: Global, row: &CommandRow) -> Command<'a>
    ensures app { app_of result ≡ new_app row.now.name.now }
    ensures local { (fields_of result).has_globals ≡ false }
{
    Command::new(alloc, row.name)
        .about(row.about)
        .after_help(row.example)
}

/// Adds the command of a row.
fn push_command<'a>(
    alloc: Global,
    commands: &mut Vec<Command<'a>>,
    row: &CommandRow,
) -> Result<(), AllocError>
    ensures { OnOk result (shapes_in commands.new.items ≡ shapes_in commands.old.items ++ of_one (shape_at row.now ∷ [])) }
{
    let mut arguments = Vec::new(alloc);
    push_arguments(alloc, &mut arguments, row.arguments)?;
    let command = titled(alloc, row).args(arguments);
    push_made(commands, command)
}

/// Adds the command of each row.
fn push_commands<'a>(
    alloc: Global,
    commands: &mut Vec<Command<'a>>,
    rows: &[CommandRow],
) -> Result<(), AllocError>
    ensures { OnOk result (shapes_in commands.new.items ≡ shapes_in commands.old.items ++ of_one (map shape_at rows.now)) }
{
    for row in rows {
        push_command(alloc, commands, row)?;
    }
    Ok(())
}

/// Adds all commands, in the order of the program's help.
fn push_office<'a>(alloc: Global, commands: &mut Vec<Command<'a>>) -> Result<(), AllocError>
    ensures { OnOk result (shapes_in commands.new.items ≡ shapes_in commands.old.items ++ of_one office_shapes) }
{
    push_commands(alloc, commands, file_commands())?;
    push_commands(alloc, commands, text_commands())?;
    push_commands(alloc, commands, book_commands())
}

/// The program, without its commands.
fn program<'a>(alloc: Global) -> Command<'a>
    ensures { app_of result ≡ on_top needs_subcommand (new_app (codes "bsp_office")) }
{
    Command::new(alloc, "bsp_office")
        .about("The office of a billing and settlement plan")
        .version(VERSION)
        .subcommand_required(true)
        .disable_help_subcommand(true)
}

/// The command line of the program.
pub(crate) fn office_command<'a>(alloc: Global) -> Result<Command<'a>, AllocError>
    ensures { IfOk result (λ c. app_of c ≡ office) }
{
    let mut filled = Vec::new(alloc);
    push_office(alloc, &mut filled)?;
    program(alloc).subcommands(filled)
}
