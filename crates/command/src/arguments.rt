//! What arguments ask for.
ghost use Rattle.std.specs.Prelude.{◌≡◌, map, option_map, string_bytes};
ghost use Rattle.clap.specs.Words.{app_of, found_of, kind_of, one_text, rows_of};
ghost use Rattle.command.specs.Choosing.{Chooses, Refuses};
ghost use Rattle.command.specs.CommandLine.{command_line, format_in, format_of, invocation_of, invocation_refused};
ghost use Rattle.command.specs.CommandLine.{level_in, number_written, options_named, run_of};
ghost use Rattle.command.specs.Private.Checked.{HoldsNumber, HoldsValues};

use crate::command_line::command;
use clap::error::ErrorKind;
use clap::{ArgMatches, Command};
use labelcore::{Format, Level, Options, level_of};
use std::alloc::Global;

/// What the arguments ask for where they ask for a run.
#[derive(Drop)]
pub struct Choice {
    /// The options of the run.
    pub options: Options,
    /// The file to read; standard input if there is none.
    pub file: Option<String>,
}

/// Why the arguments ask for no run.
#[derive(Drop)]
pub enum WordsFault {
    /// The arguments ask for help, and this is its text.
    Help(String),
    /// The command does not take the arguments.
    Bad,
    /// Memory ran out.
    Memory,
}

/// Returns the format of this name.
fn format_of(text: &str) -> Option<Format>
    ensures { result ≡ format_of text.now }
{
    match text {
        "pbm" => Some(Format::Pbm),
        "ascii" => Some(Format::Ascii),
        _ => None,
    }
}

/// Returns the format that the matches name, or the default. It is `None` for a name that is not listed.
#[tactic(auto, using(crate::proofs::NamedLaws::of_rows))]
fn format_in(matches: &ArgMatches<'_>) -> Option<Format>
    ensures { result ≡ format_in (rows_of (found_of matches.now)) }
{
    match matches.get_str("format") {
        Some(name) => format_of(name),
        None => Some(Options::default().run.format()),
    }
}

/// Returns the level that the matches name, or the default. It is `None` for a name that is not listed.
#[tactic(auto, using(crate::proofs::NamedLaws::of_rows))]
fn level_in(matches: &ArgMatches<'_>) -> Option<Level>
    ensures { result ≡ level_in (rows_of (found_of matches.now)) }
{
    match matches.get_str("level") {
        Some(name) => level_of(name.as_bytes()),
        None => Some(Options::default().label.level()),
    }
}

/// Returns the number that the matches name for an option, 0 to 65,535.
fn number(matches: &ArgMatches<'_>, id: &str) -> Option<u16>
    requires { HoldsNumber 0 65535 id.now (found_of matches.now) }
    ensures { result ≡ option_map number_written (one_text (found_of matches.now) id.now) }
{
    matches.get_one(id)
}

/// Returns the number that the matches name for an option, 0 to 255.
fn small_number(matches: &ArgMatches<'_>, id: &str) -> Option<u8>
    requires { HoldsNumber 0 255 id.now (found_of matches.now) }
    ensures { result ≡ option_map number_written (one_text (found_of matches.now) id.now) }
{
    matches.get_one(id)
}

/// Returns the options that the matches name, with the defaults for the others, or `None` if the format or the level is
/// not listed.
fn options_named(matches: &ArgMatches<'_>) -> Option<Options>
    requires { HoldsValues (found_of matches.now) }
    ensures { result ≡ options_named (rows_of (found_of matches.now)) }
{
    let defaults = Options::default();
    let format = format_in(matches)?;
    let level = level_in(matches)?;
    let scale = small_number(matches, "scale").unwrap_or(defaults.run.scale());
    let height = number(matches, "height").unwrap_or(defaults.label.height());
    let min_version = small_number(matches, "min-version").unwrap_or(defaults.label.min_version());
    let mask = small_number(matches, "mask");
    let escapes = matches.get_flag("escapes");
    Options::new(format, scale, height, level, min_version, mask, escapes)
}

/// Returns the run that the matches ask for.
#[tactic(auto, using(crate::proofs::NamedLaws::of_rows))]
fn choice_of(alloc: Global, matches: &ArgMatches<'_>) -> Result<Choice, WordsFault>
    requires { HoldsValues (found_of matches.now) }
    ensures { Chooses (run_of (rows_of (found_of matches.now))) result }
{
    let Some(options) = options_named(matches) else {
        return Err(WordsFault::Bad);
    };
    let file = match matches.get_str("file") {
        Some(name) => match String::from_str(alloc, name) {
            Ok(name) => Some(name),
            Err(_) => return Err(WordsFault::Memory),
        },
        None => None,
    };
    Ok(Choice { options, file })
}

/// Returns why the arguments ask for no run, from the error of the parser.
fn fault_of(alloc: Global, error: &clap::Error) -> WordsFault
    ensures memory { kind_of error.now ≡ ErrorKind.OutOfMemory → result ≡ WordsFault.Memory }
    ensures other { Refuses (invocation_refused (kind_of error.now)) result }
{
    match error.kind() {
        ErrorKind::OutOfMemory => WordsFault::Memory,
        ErrorKind::DisplayHelp => match format!(in alloc; "{error}") {
            Ok(text) => WordsFault::Help(text),
            Err(_) => WordsFault::Memory,
        },
        _ => WordsFault::Bad,
    }
}

/// Returns what the arguments after the program's name ask for.
///
/// # Errors
///
/// `Help` with the text that `-h` or `--help` asks for, `Bad` if the command does not take the arguments, and `Memory`
/// if memory ran out.
pub fn options_of(alloc: Global, arguments: &[String]) -> Result<Choice, WordsFault>
    ensures { Chooses (invocation_of (map string_bytes arguments.now)) result }
{
    match command(alloc) {
        Ok(command) => parsed_by(alloc, command, arguments),
        Err(_) => Err(WordsFault::Memory),
    }
}

/// Returns what the arguments ask for, as the command line parses them.
fn parsed_by<'a>(
    alloc: Global,
    mut command: Command<'a>,
    arguments: &'a [String],
) -> Result<Choice, WordsFault>
    requires { app_of command ≡ command_line }
    ensures { Chooses (invocation_of (map string_bytes arguments.now)) result }
{
    // Where the build runs out of memory, the parse fails with `OutOfMemory`.
    let _ = command.build();
    match command.try_get_matches_from(arguments) {
        Ok(matches) => choice_of(alloc, &matches),
        Err(error) => Err(fault_of(alloc, &error)),
    }
}
