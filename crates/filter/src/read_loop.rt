//! A run over a whole input.
ghost use Rattle.filter.specs.Run.{Runs};

use crate::filter::Filter;
use crate::status::{RunFault, Status};
use device::{Sink, Source};
use labelcore::Options;

/// Reads the source to its end, at most 4,096 bytes a read, and writes the images of its lines to `out`, their messages
/// to `err`. Before each read and each message, `out` passes on what it buffers. Returns whether a line was refused.
///
/// # Errors
///
/// `Read` where a read failed: the images and messages of the ended lines are whole, the open line is not drawn, and
/// nothing is flushed. `Read` also after 2^64 - 1 reads that gave bytes. `WriteOut` where a call of `out` failed,
/// `WriteMessages` where one of `err` did. `Spent` is never returned.
pub fn run<S: Source, O: Sink, E: Sink>(
    options: Options,
    source: &mut S,
    out: &mut O,
    err: &mut E,
) -> Result<Status, RunFault>
    ensures { Runs S.Source O.Sink E.Sink options source.old source.new out.old out.new err.old err.new result }
{
    let mut filter = Filter::new(options);
    let mut buffer = [0u8; 4096];
    // A read may wait for input, so what is buffered is passed on before each.
    let Ok(()) = out.pass_on() else {
        return Err(RunFault::WriteOut);
    };
    for _turn in 0..u64::MAX {
        let Ok(count) = source.read(&mut buffer) else {
            return Err(RunFault::Read);
        };
        if count == 0 {
            return filter.finish(out, err);
        }
        filter.feed(&buffer[..count], out, err)?;
        let Ok(()) = out.pass_on() else {
            return Err(RunFault::WriteOut);
        };
    }
    Err(RunFault::Read)
}
