//! Writing a whole text.
ghost use Rattle.device.specs.Writing.{WritesText};

use crate::{IoFault, Sink};

/// Writes all of `bytes`, in as many writes as the sink needs, and flushes nothing.
///
/// # Errors
///
/// [`IoFault`] where a write fails: the sink took a beginning of `bytes`.
#[inline(always)]
pub fn write_whole<S: Sink>(bytes: &[u8], sink: &mut S) -> Result<(), IoFault>
    ensures { WritesText S.Sink sink.old sink.new bytes.now result }
{
    let mut rest = bytes;
    while !rest.is_empty() {
        let taken = sink.write(rest)?;
        rest = &rest[taken..];
    }
    Ok(())
}
