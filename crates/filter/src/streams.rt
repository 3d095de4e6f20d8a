//! A run from a reader to a writer, as the program makes it.
ghost use Rattle.std.specs.Prelude.{◌≡◌, true, [], ◌++◌, IfOk, IfSome, OnOk};
ghost use Rattle.std.specs.Io.KnownBytes.{Appends};
ghost use Rattle.device.specs.Buffered.{buffered_bytes, sink_of};
ghost use Rattle.device.specs.Streams.{reader_of, writer_of};
ghost use Rattle.filter.specs.Run.{Produces, Runs};
ghost use Rattle.filter.specs.Filter.{taken};
ghost use Rattle.filter.specs.Shown.{Shows};

use crate::read_loop::run;
use crate::status::{RunFault, Status};
use device::{Buffered, Sink, Source, StdSink, StdSource};
use labelcore::Options;
use std::io::{Read, Write};

/// Runs over a reader of std, as [`run`] does, and writes the images to a writer of std through a buffer.
///
/// At `Ok` the writer itself took every image, nothing is left in the buffer, both sinks are flushed, and the reader is
/// at its end. Where the bytes of the reader are known, the images and messages are those of exactly these bytes.
///
/// # Errors
///
/// Those of [`run`]. Where another device failed, nothing is left in the buffer. Of a device that failed nothing more is
/// asked.
pub fn run_streams<R: Read, W: Write, E: Sink>(
    options: Options,
    source: &mut StdSource<R>,
    out: &mut Buffered<StdSink<W>>,
    err: &mut E,
) -> Result<Status, RunFault>
    ensures runs { Runs (⟦<StdSource<R> as Source>⟧) (⟦<Buffered<StdSink<W>> as Sink>⟧) E.Sink
        options source.old source.new out.old out.new err.old err.new result }
    ensures whole { OnOk result (Produces options
        (λ text. IfSome (R.remaining (reader_of source.old)) (λ bytes. text ≡ bytes))
        (taken (λ stream. Appends (W.contents (writer_of (sink_of out.old)))
        (W.contents (writer_of (sink_of out.new))) (buffered_bytes out.old ++ stream))
        (E.took err.old err.new)) result) }
    ensures shows { IfOk result (λ status. Shows options
        (λ text. IfSome (R.remaining (reader_of source.old)) (λ bytes. text ≡ bytes))
        (taken (λ stream. Appends (W.contents (writer_of (sink_of out.old)))
        (W.contents (writer_of (sink_of out.new))) (buffered_bytes out.old ++ stream))
        (E.took err.old err.new)) status) }
    ensures reaches { OnOk result ((buffered_bytes out.new ≡ [])
        × (⟦<StdSink<W> as Sink>⟧.is_flushed (sink_of out.new) ≡ true)) }
{
    match run(options, source, out, err) {
        Ok(status) => {
            out.prove_reached();
            Ok(status)
        }
        Err(fault) => Err(fault),
    }
}
