//! The program: from the arguments to what it writes and to its status.
ghost use Rattle.std.specs.Prelude.{MatchResult, map, option_map, string_bytes};
ghost use Rattle.std.specs.Result.{result_map_both};
ghost use Rattle.device.specs.Device.{Begins};
ghost use Rattle.command.specs.CommandLine.{invocation_of, run};
ghost use Rattle.command.specs.Program.{EndsShown, EndsSo, Finishes, Helps};

use crate::arguments::{Choice, WordsFault, options_of};
use crate::end::End;
use crate::file::{NamedFiles, OpenFault};
use device::{Buffered, IoFault, Sink, Source, StdSink, StdSource, write_whole};
use filter::{RunFault, run_streams};
use std::alloc::{AllocGlobal, Global};
use std::env;
use std::io::{ErrorKind, Read, Write};
use std::rt::Env;

/// Returns the arguments after the program's name.
///
/// # Errors
///
/// How the program ends without them: `NoMemory` if memory ran out, and `BadWords` if one is not UTF-8.
pub fn arguments_of<S: Env + AllocGlobal>(system: &S) -> Result<Vec<String>, End> {
    match env::args(system) {
        Ok(mut arguments) => {
            let _name = arguments.next();
            match arguments.collect(system.alloc()) {
                Ok(arguments) => Ok(arguments),
                Err(_) => Err(End::NoMemory),
            }
        }
        Err(error) => Err(match error.kind() {
            ErrorKind::OutOfMemory => End::NoMemory,
            _ => End::BadWords,
        }),
    }
}

/// Does what the arguments after the program's name ask for: runs the filter over the file that they name or over
/// `input`, or prints the help text. Pictures and help go to `output`, messages to `errors`, and after the messages the
/// line of the end, if it has one. Returns the exit status. Where there are no arguments, but an end, the program ends
/// so. `input` is read only in a run over it, and no file is opened but the one that is named.
pub fn program<F: NamedFiles, R: Read, W: Write, E: Sink>(
    alloc: Global,
    arguments: Result<Vec<String>, End>,
    files: &mut F,
    input: &mut StdSource<R>,
    output: &mut Buffered<StdSink<W>>,
    errors: &mut E,
) -> u8
    ensures runs { Finishes (record {
      files = F.NamedFiles;
      file = record { source = ⟦<StdSource<F::Reader> as Source>⟧; left = F.Reader.remaining };
      input = record { source = ⟦<StdSource<R> as Source>⟧; left = R.remaining };
      out = ⟦<Buffered<StdSink<W>> as Sink>⟧;
      contents = W.contents;
      err = E.Sink;
    }) EndsSo (result_map_both (λ known. map string_bytes known.items) (λ early. early) arguments)
        (record { files = files.old; input = input.old; output = output.old; errors = errors.old })
        (record { files = files.new; input = input.new; output = output.new; errors = errors.new }) result }
    ensures shows { Finishes (record {
      files = F.NamedFiles;
      file = record { source = ⟦<StdSource<F::Reader> as Source>⟧; left = F.Reader.remaining };
      input = record { source = ⟦<StdSource<R> as Source>⟧; left = R.remaining };
      out = ⟦<Buffered<StdSink<W>> as Sink>⟧;
      contents = W.contents;
      err = E.Sink;
    }) EndsShown (result_map_both (λ known. map string_bytes known.items) (λ early. early) arguments)
        (record { files = files.old; input = input.old; output = output.old; errors = errors.old })
        (record { files = files.new; input = input.new; output = output.new; errors = errors.new }) result }
{
    let end = match arguments {
        Ok(arguments) => end_of(alloc, arguments.as_slice(), files, input, output, errors),
        Err(end) => end,
    };
    // If the line can't be written, nothing changes: the status says how the program ended.
    let _ = write_whole(end.line().as_bytes(), errors);
    end.status()
}

/// Does what the arguments ask for, and returns how it ended.
fn end_of<F: NamedFiles, R: Read, W: Write, E: Sink>(
    alloc: Global,
    arguments: &[String],
    files: &mut F,
    input: &mut StdSource<R>,
    output: &mut Buffered<StdSink<W>>,
    errors: &mut E,
) -> End
    ensures { EndsSo (record {
      files = F.NamedFiles;
      file = record { source = ⟦<StdSource<F::Reader> as Source>⟧; left = F.Reader.remaining };
      input = record { source = ⟦<StdSource<R> as Source>⟧; left = R.remaining };
      out = ⟦<Buffered<StdSink<W>> as Sink>⟧;
      contents = W.contents;
      err = E.Sink;
    }) (record { files = files.old; input = input.old; output = output.old; errors = errors.old })
        (record { files = files.new; input = input.new; output = output.new; errors = errors.new })
        result (invocation_of (map string_bytes arguments.now)) }
{
    match options_of(alloc, arguments) {
        Ok(choice) => run_choice(&choice, files, input, output, errors),
        Err(WordsFault::Help(text)) => match help(text.as_str(), output) {
            Ok(()) => End::Helped,
            Err(_) => End::Ran(Err(RunFault::WriteOut)),
        },
        Err(WordsFault::Bad) => End::BadWords,
        Err(WordsFault::Memory) => End::NoMemory,
    }
}

/// Prints the help text.
fn help<O: Sink>(text: &str, output: &mut O) -> Result<(), IoFault>
    ensures helps { Helps O.Sink output.old output.new result }
    ensures prints { MatchResult result (λ _. O.took output.old output.new text.now)
        (λ _. Begins (O.took output.old output.new) text.now) }
{
    write_whole(text.as_bytes(), output)?;
    output.flush()
}

/// Runs the filter over the file of the choice, or over `input` if it names none.
fn run_choice<F: NamedFiles, R: Read, W: Write, E: Sink>(
    choice: &Choice,
    files: &mut F,
    input: &mut StdSource<R>,
    output: &mut Buffered<StdSink<W>>,
    errors: &mut E,
) -> End
    ensures { EndsSo (record {
      files = F.NamedFiles;
      file = record { source = ⟦<StdSource<F::Reader> as Source>⟧; left = F.Reader.remaining };
      input = record { source = ⟦<StdSource<R> as Source>⟧; left = R.remaining };
      out = ⟦<Buffered<StdSink<W>> as Sink>⟧;
      contents = W.contents;
      err = E.Sink;
    }) (record { files = files.old; input = input.old; output = output.old; errors = errors.old })
        (record { files = files.new; input = input.new; output = output.new; errors = errors.new })
        result (run choice.now.options (option_map string_bytes choice.now.file)) }
{
    match &choice.file {
        Some(name) => match files.open(name.as_str()) {
            Ok(file) => {
                let mut source = StdSource::new(file);
                End::Ran(run_streams(choice.options, &mut source, output, errors))
            }
            Err(OpenFault::NoFile) => End::NoFile,
            Err(OpenFault::Memory) => End::NoMemory,
        },
        None => End::Ran(run_streams(choice.options, input, output, errors)),
    }
}
