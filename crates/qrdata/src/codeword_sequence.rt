//! The codewords of a symbol in the order in which they are placed (ISO/IEC 18004, 7.4 to 7.6).
ghost use Rattle.qrdata.specs.Private.BitsInCodewords.{bits_in};
ghost use Rattle.qrdata.specs.Codewords.{data_codewords_of, final_message};
ghost use Rattle.qrdata.specs.PlanView.{AreSymbolCodewords, HasFittingSegments, plan_view};
ghost use Rattle.qrdata.specs.Segments.{segments_bits};
ghost use Rattle.qrdata.specs.Versions.{data_codewords};
ghost use Rattle.std.specs.Prelude.{length, ◌≡◌, []};

use crate::bits::{Bits, are_bytes, push_padding};
use crate::blocks::{Lengths, Words, interleave, push_ec_codewords, push_lengths};
use crate::mode::Segment;
use crate::plan::Plan;
use crate::version::Version;
use labelcore::Level;

/// Writes the codewords of the symbol of a plan for its data into `words`, in the order in which they are placed: the
/// data codewords of its blocks interleaved, then their error correction codewords interleaved (ISO/IEC 18004, 7.6).
/// They replace what `words` held, and read back as the data.
pub fn codewords(plan: &Plan, data: &[u8], words: &mut Words)
    requires { HasFittingSegments plan.now «data».now }
    ensures { AreSymbolCodewords plan.now «data».now words.new.items }
{
    let version = plan.version();
    let level = plan.level();
    are_bytes(data);
    let mut message = Bits::new();
    push_data(version, level, plan.segments(), data, &mut message);
    write_symbol(version, level, message.codewords.as_slice(), words);
}

/// Writes the data codewords of the segments.
fn push_data(version: Version, level: Level, segments: &[Segment], bytes: &[u8], message: &mut Bits)
    requires empty { bits_in message.old ≡ [] }
    requires plan { HasFittingSegments (plan_view version level segments.now) bytes.now }
    ensures { message.new.codewords.items
        ≡ data_codewords_of (data_codewords version level) (segments_bits version segments.now bytes.now) }
{
    version.prove_range();
    let size = version.data_words(level);
    message.push_segments(version, segments, bytes);
    message.end(size);
    push_padding(size - message.codewords.len(), &mut message.codewords);
}

/// Writes the blocks of the data codewords interleaved, and then their error correction codewords interleaved.
fn write_symbol(version: Version, level: Level, message: &[u8], codewords: &mut Words)
    requires whole { length message.now ≡ data_codewords version level }
    ensures { codewords.new.items ≡ final_message version level message.now }
{
    version.prove_range();
    let count = version.ec_codewords_per_block(level);
    let blocks = version.lengths(level);
    let lengths = blocks.as_slice();
    let mut ec_lengths = Lengths::new();
    push_lengths(&mut ec_lengths, lengths.len(), count);
    let mut ec_codewords = Words::new();
    push_ec_codewords(count, lengths, message, &mut ec_codewords);
    codewords.clear();
    interleave(lengths, message, codewords);
    interleave(ec_lengths.as_slice(), ec_codewords.as_slice(), codewords);
}
