//! A filter that is fed in two pieces.
ghost use Rattle.std.specs.Prelude.{◌≡◌, ◌++◌};
ghost use Rattle.filter.specs.Run.{Produces};
ghost use Rattle.filter.specs.Filter.{CountsFault, FlushesImagesFirst, taken};

use device::Sink;
use filter::{Filter, RunFault, Status};
use labelcore::Options;

/// Draws the labels of a text that comes in two pieces, wherever it is cut: the sinks take the images and the messages
/// of the whole text. Returns its status.
///
/// # Errors
///
/// `WriteOut` where a call of `out` failed, `WriteMessages` where one of `err` did.
pub fn draw_in_two<O: Sink, E: Sink>(
    options: Options,
    first: &[u8],
    second: &[u8],
    out: &mut O,
    err: &mut E,
) -> Result<Status, RunFault>
    ensures produces { Produces options (λ text. text ≡ first.now ++ second.now)
        (taken (O.took out.old out.new) (E.took err.old err.new)) result }
    ensures counts { CountsFault (O.failures out.old) (O.failures out.new)
        (E.failures err.old) (E.failures err.new) result }
    ensures flushed { FlushesImagesFirst (O.is_flushed out.old) (O.is_flushed out.new)
        (E.is_flushed err.old) (E.is_flushed err.new) result }
{
    let mut filter = Filter::new(options);
    filter.feed(first, out, err)?;
    filter.feed(second, out, err)?;
    filter.finish(out, err)
}
