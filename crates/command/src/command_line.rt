//! The command line: its options, its argument and its help text.
ghost use Rattle.std.specs.Prelude.{◌≡◌, IfOk, false};
ghost use Rattle.clap.specs.Words.{app_of, rule_of};
ghost use Rattle.command.specs.CommandLine.{command_line};
ghost use Rattle.command.specs.Private.Rules.{rule};

use clap::builder::ValueParser;
use clap::{Arg, ArgAction, Command};
use labelcore::{Bounds, HEIGHT, MASK, MIN_VERSION, SCALE};
use std::alloc::{AllocError, Global};

/// The program and its version: the first line of the help text.
pub const VERSION: &str = "labels 1.2.0";

/// The help text before the usage.
const ABOUT: &str =
    "Draws EAN, UPC, Code 128 and QR Code labels: one picture for each line of the input.";

/// The help text after the options.
const AFTER_HELP: &str = "\
Lines: NAME[,KEY=VALUE].. DATA, where NAME and DATA are
  ean13 400638133393       12 digits, or 13 with the check digit
  ean8 7351353             7 digits, or 8 with the check digit
  upca 03600029145         11 digits, or 12 with the check digit
  code128 SHELF-7          1 to 80 bytes of ASCII
  qr https://example.com   any bytes that fit in version 10
and KEY is height, or for qr level, min-version or mask (0 to 7, or auto). Empty lines and
lines that begin with # draw nothing. A refused line gives a message on standard error.

Status: 0 no line was refused, 1 at least one line was refused, 2 labels does not take the
arguments (bad words), 3 reading, writing or opening FILE failed, or memory ran out.

Example: echo 'ean13 400638133393' | labels --scale 4 --height 70 > pencil.pbm";

/// An argument of the command line.
#[derive(Clone, Copy)]
struct Argument {
    name: &'static str,
    takes: Takes,
    help: &'static str,
}

/// What an argument takes. The help text calls a value by the text that is here.
#[derive(Clone, Copy)]
enum Takes {
    /// An option with a text.
    Text(&'static str),
    /// An option with a whole number within these bounds.
    Number(&'static str, Bounds),
    /// An option with no value.
    Nothing,
    /// No option, but the name of a file.
    File(&'static str),
}

/// The arguments, in the order of the help text.
static ARGUMENTS: [Argument; 8] = [
    Argument {
        name: "format",
        takes: Takes::Text("pbm|ascii"),
        help: "How pictures are written: as plain PBM or as text [default: pbm]",
    },
    Argument {
        name: "scale",
        takes: Takes::Number("1-8", SCALE),
        help: "The width and height of a module in pixels [default: 1]",
    },
    Argument {
        name: "height",
        takes: Takes::Number("1-500", HEIGHT),
        help: "The height of EAN, UPC and Code 128 symbols in modules [default: 50]",
    },
    Argument {
        name: "level",
        takes: Takes::Text("L|M|Q|H"),
        help: "The error correction level of QR symbols [default: M]",
    },
    Argument {
        name: "min-version",
        takes: Takes::Number("1-10", MIN_VERSION),
        help: "The smallest version of QR symbols [default: 1]",
    },
    Argument {
        name: "mask",
        takes: Takes::Number("0-7", MASK),
        help: "The mask of QR symbols [default: the mask with the lowest penalty]",
    },
    Argument {
        name: "escapes",
        takes: Takes::Nothing,
        help: "Read \\\\, \\n and \\xHH in the data as one byte each",
    },
    Argument {
        name: "file",
        takes: Takes::File("FILE"),
        help: "The file to read; standard input if there is none",
    },
];

/// Returns the command line.
pub fn command<'a>(alloc: Global) -> Result<Command<'a>, AllocError>
    ensures { IfOk result (λ c. app_of c ≡ command_line) }
{
    let mut command = Command::new(alloc, "labels")
        .no_binary_name(true)
        .before_help(VERSION)
        .about(ABOUT)
        .after_help(AFTER_HELP);
    for argument in &ARGUMENTS {
        command = command.arg(arg_of(alloc, argument))?;
    }
    Ok(command)
}

/// Returns the argument as `clap` has it.
fn arg_of<'a>(alloc: Global, argument: &Argument) -> Arg<'a>
    ensures rule { rule_of result ≡ rule argument.now }
    ensures local { result.global ≡ false }
{
    let name = argument.name;
    let arg = Arg::new(alloc, name).help(argument.help);
    match argument.takes {
        Takes::Text(value) => arg.long(name).value_name(value),
        Takes::Number(value, bounds) => arg.long(name).value_name(value).value_parser(
            ValueParser::Signed(i64::from(bounds.low), i64::from(bounds.high)),
        ),
        Takes::Nothing => arg.long(name).action(ArgAction::SetTrue),
        Takes::File(value) => arg.value_name(value),
    }
}
