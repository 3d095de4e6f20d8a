//! A run over a text in memory.
ghost use Rattle.filter.specs.Run.{Runs};

use device::{Sink, Source};
use filter::{RunFault, Status, run};
use labelcore::Options;
use testing::{MemSink, MemSource};

/// Draws the labels of the text that a source has left. The contract is that of [`run`], stated for memory.
///
/// # Errors
///
/// Those of [`run`].
pub fn draw_labels<'a, const N: usize, const M: usize>(
    options: Options,
    source: &mut MemSource<'a>,
    images: &mut MemSink<N>,
    messages: &mut MemSink<M>,
) -> Result<Status, RunFault>
    ensures { Runs (⟦<MemSource<'a> as Source>⟧) (⟦<MemSink<N> as Sink>⟧) (⟦<MemSink<M> as Sink>⟧)
        options source.old source.new images.old images.new messages.old messages.new result }
{
    run(options, source, images, messages)
}
