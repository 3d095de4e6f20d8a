//! The choice of a version and of segments.
ghost use Rattle.qrdata.specs.Fewest.{chosen_segments};
ghost use Rattle.labelcore.specs.declared.fault.Fault.TheVariants.{DoesNotFit};
ghost use Rattle.qrdata.specs.PlanView.{FitsNowhere, IsBestPlan, plan_view};
ghost use Rattle.qrdata.specs.Private.SmallestPlan.{AreDigits, FitsBits, HasRoom, HaveNoRoom, IsSmallestPlan, IsTable};
ghost use Rattle.qrdata.specs.Private.SmallestPlan.{NoPlan, SameWidths};
ghost use Rattle.qrdata.specs.Segments.{cost, segment_of};
ghost use Rattle.qrdata.specs.declared.mode.Mode.TheVariants.{Numeric};
ghost use Rattle.qrdata.specs.Versions.{IsVersion};
ghost use Rattle.std.specs.Char.{is_ascii_digit};
ghost use Rattle.std.specs.List.{list_all};
ghost use Rattle.std.specs.Prelude.{◌≡◌, ◌+◌, ◌<◌, ◌≤◌, IfErr, IfNone, IfOk, IfSome, List, [], ◌∷◌, ℕ};

use crate::firsts::{Firsts, MAX_BYTES};
use crate::mode::{Mode, Segment};
use crate::segmentation::fill;
use crate::version::Version;
use arrayvec::ArrayVec;
use labelcore::{Fault, Level, Options};
use std::marker::Model;

/// The most segments that fit a symbol: in version 10 each has at least 20 bits, and there are at most 2192 data bits.
/// Fewer segments fit the other versions.
const MAX_SEGMENTS: usize = 109;

/// A plan of a symbol: its version, its level, and the segments of its data.
#[derive(Drop)]
pub struct Plan {
    version: Version,
    level: Level,
    segments: ArrayVec<Segment, MAX_SEGMENTS>,
    bits: u32,
}

impl Model for Plan {
    ghost use Rattle.std.specs.Prelude.{◌≡◌};
    ghost use Rattle.qrdata.specs.PlanView.{PlanView};
    ghost use Rattle.qrdata.specs.Segments.{cost};

    ghost Value = { PlanView };

    ghost view = { λ p. record {
      version = p.version;
      level = p.level;
      segments = p.segments.items;
    } };

    ghost invariant = { λ p. p.bits ≡ cost p.version p.segments.items };
}

impl Plan {
    /// Returns the version of the symbol.
    pub fn version(&self) -> Version
        ensures value { result ≡ self.now.version }
        ensures known { IsVersion result }
    {
        let version = self.version;
        version.prove_range();
        version
    }

    /// Returns the error correction level of the symbol.
    pub fn level(&self) -> Level
        ensures { result ≡ self.now.level }
    {
        self.level
    }

    /// Returns the segments, from the front of the data.
    pub fn segments(&self) -> &[Segment]
        ensures { result.now ≡ self.now.segments }
    {
        self.segments.as_slice()
    }

    /// Returns the number of bits of the segments, with their mode indicators and character counts.
    pub fn bits(&self) -> u32
        ensures { result ≡ cost self.now.version self.now.segments }
    {
        self.bits
    }
}

/// Chooses the smallest version, from the least that the options allow to 10, in which some segments of the data fit the
/// data codewords of the options' level, and in it the segments with the fewest bits (ISO/IEC 18004, 7.4.1). Of several
/// such lists it chooses the one with the longest first segment, then numeric mode before alphanumeric before byte mode,
/// and the later segments in the same way. Empty data has no segments. The other options have no part in the choice.
///
/// # Errors
///
/// `DoesNotFit` where the data fits none of these versions.
pub fn choose(options: &Options, data: &[u8]) -> Result<Plan, Fault>
    ensures plan { IfOk result (IsBestPlan options.now.label.min_version options.now.label.level «data».now) }
    ensures fault { IfErr result (λ fault. fault ≡ DoesNotFit options.now.label.level) }
    ensures refused { IfErr result (λ _. FitsNowhere options.now.label.min_version options.now.label.level «data».now) }
{
    let lowest = Version::of(options.min_version());
    let level = options.level();
    match plan_from(lowest, level, data) {
        Some(plan) => Ok(plan),
        None => Err(Fault::DoesNotFit(level)),
    }
}

/// Makes the plan of the smallest version from `lowest` to 10. One table of best segments serves all versions up to 9,
/// and a second one version 10.
fn plan_from(lowest: Version, level: Level, bytes: &[u8]) -> Option<Plan>
    ensures some { IfSome result (IsSmallestPlan lowest 10 level bytes.now) }
    ensures none { IfNone result (NoPlan lowest 10 level bytes.now) }
{
    if lowest.number() < 10 {
        if let Some(plan) = plan_between(lowest, Version::of(9), level, bytes) {
            return Some(plan);
        }
    }
    plan_between(Version::of(10), Version::of(10), level, bytes)
}

/// Makes the plan of the smallest version from `lowest` to `highest`. In all of these a character count has the
/// same bits, so that the best segments are the same.
fn plan_between(lowest: Version, highest: Version, level: Level, bytes: &[u8]) -> Option<Plan>
    requires same { (v : ℕ) → lowest ≤ v → v ≤ highest → SameWidths v highest }
    ensures some { IfSome result (IsSmallestPlan lowest highest level bytes.now) }
    ensures none { IfNone result (NoPlan lowest highest level bytes.now) }
{
    highest.prove_range();
    // Three bytes have ten bits at least.
    if bytes.len() > 3 * highest.capacity(level) / 10 {
        return None;
    }
    if !bytes.is_empty() && are_digits(bytes) {
        return digits_between(lowest, highest, level, bytes.len());
    }
    let mut firsts = Firsts::new();
    let bits = fill(highest, bytes, &mut firsts);
    match smallest_version(lowest, highest, level, bits) {
        Some(version) => Some(plan_of(version, level, bytes, &firsts, bits as u32)),
        None => None,
    }
}

/// Returns whether all bytes are digits. It looks at each byte, so that the compiler can look at many at once.
fn are_digits(bytes: &[u8]) -> bool
    ensures { result ≡ list_all is_ascii_digit bytes.now }
{
    let mut all = true;
    for byte in bytes {
        all = all & byte.is_ascii_digit();
    }
    all
}

/// Makes the plan of `len` digits for the smallest version from `lowest` to `highest`: one segment in numeric mode.
fn digits_between(lowest: Version, highest: Version, level: Level, len: usize) -> Option<Plan>
    requires some { (0 < len) × (len ≤ MAX_BYTES) }
    requires same { (v : ℕ) → lowest ≤ v → v ≤ highest → SameWidths v highest }
    ensures some { (bytes : List ℕ) → AreDigits len bytes
        → IfSome result (IsSmallestPlan lowest highest level bytes) }
    ensures none { (bytes : List ℕ) → AreDigits len bytes
        → IfNone result (NoPlan lowest highest level bytes) }
{
    let bits = 4 + Mode::Numeric.count_width(highest) + Mode::Numeric.payload_length(len);
    match smallest_version(lowest, highest, level, bits) {
        Some(version) => Some(plan_of_digits(version, level, len as u16, bits as u32)),
        None => None,
    }
}

/// Makes the plan of one segment in numeric mode, which has `bits` bits.
fn plan_of_digits(version: Version, level: Level, len: u16, bits: u32) -> Plan
    requires { bits ≡ cost version (segment_of Numeric len ∷ []) }
    ensures { result ≡ plan_view version level (segment_of Numeric len ∷ []) }
{
    let mut segments = ArrayVec::new();
    segments.push(Segment {
        mode: Mode::Numeric,
        len,
    });
    Plan {
        version,
        level,
        segments,
        bits,
    }
}

/// Returns the smallest version, from `lowest` to `highest`, that has `bits` data bits.
fn smallest_version(lowest: Version, highest: Version, level: Level, bits: usize) -> Option<Version>
    ensures some { IfSome result (HasRoom lowest highest level bits) }
    ensures none { IfNone result (HaveNoRoom lowest (highest + 1) level bits) }
{
    for number in lowest.number()..highest.number() + 1 {
        let version = Version::of(number);
        if bits <= version.capacity(level) {
            return Some(version);
        }
    }
    None
}

/// Makes the plan of the segments that a table names, from the front of the data. They have `bits` bits.
fn plan_of(version: Version, level: Level, bytes: &[u8], firsts: &Firsts, bits: u32) -> Plan
    requires table { IsTable version bytes.now bits firsts.now }
    requires bits { FitsBits version level bits (chosen_segments version bytes.now) }
    ensures { result ≡ plan_view version level (chosen_segments version bytes.now) }
{
    let mut segments = ArrayVec::new();
    let mut place = 0;
    while place < bytes.len() {
        let first = firsts.at(place);
        segments.push(first);
        place += usize::from(first.len);
    }
    Plan {
        version,
        level,
        segments,
        bits,
    }
}
