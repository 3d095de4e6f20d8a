//! The filter, fed piece by piece.
ghost use Rattle.std.specs.Prelude.{◌≡◌, ℕ, ◌<◌, true, false, All, List, [], ◌∷◌, ◌++◌, Err, IfOk, MatchResult, OnErr};
ghost use Rattle.labelcore.specs.Lines.{HasNoLF, LF};
ghost use Rattle.labelcore.specs.OptionValues.{RunValues};
ghost use Rattle.labelcore.specs.declared.options.Options.{Options};
ghost use Rattle.filter.specs.Filter.{CountsFault, FilterState, FlushesImagesFirst, FlushesNeither, IsAfter};
ghost use Rattle.filter.specs.Filter.{Feeds, PassesOnFirst, Sends, Stops, Took, taken};
ghost use Rattle.filter.specs.Output.{ended_script, flushes, script, status_of};

use crate::line_end::{Room, finish_line};
use crate::status::{RunFault, Status};
use device::Sink;
use labelcore::{LineBuf, Options, split_line};
use std::marker::Model;

/// A filter that is fed its input piece by piece. Between pieces it keeps at most 1,100 bytes of the line that is not
/// ended yet, the number of the lines before it, and their status.
#[derive(Drop)]
pub struct Filter {
    options: Options,
    line: LineBuf,
    line_count: u64,
    status: Status,
    is_spent: bool,
}

impl Model for Filter {
    ghost use Rattle.filter.specs.Filter.{FilterState};

    ghost Value = { FilterState };

    ghost view = { λ f. record {
      options = f.options;
      line = f.line;
      line_count = f.line_count;
      status = f.status;
      is_spent = f.is_spent;
    } };
}

impl Filter {
    /// Returns a filter with these options that was fed nothing.
    pub fn new(options: Options) -> Self
        ensures { IsAfter options result [] }
    {
        Options::prove_ranges(&options.run, &options.label);
        Filter {
            options,
            line: LineBuf::new(),
            line_count: 0,
            status: Status::Clean,
            is_spent: false,
        }
    }

    /// Holds bytes of the open line.
    fn hold(&mut self, bytes: &[u8])
        requires { HasNoLF bytes.now }
        ensures { (options : Options) (text : List ℕ) → IsAfter options self.old text
            → IsAfter options self.new (text ++ bytes.now) }
    {
        self.line.extend(bytes);
    }

    /// Takes the LF that ends the open line.
    fn end_line<O: Sink, E: Sink>(
        &mut self,
        room: &mut Room,
        out: &mut O,
        err: &mut E,
    ) -> Result<(), RunFault>
        ensures feeds { (options : Options) (text : List ℕ) → IsAfter options self.old text
            → Feeds options (taken (O.took out.old out.new) (E.took err.old err.new)) self.new
            text (text ++ LF ∷ []) result }
        ensures spent { OnErr result (self.new.is_spent ≡ true) }
        ensures sinks { FlushesNeither O.Sink E.Sink out.old out.new err.old err.new result }
    {
        self.line_count = self.line_count.saturating_add(1);
        match finish_line(&self.options, &self.line, self.line_count, room, out, err) {
            Ok(status) => {
                self.status = self.status.worst(status);
                self.line.clear();
                Ok(())
            }
            Err(fault) => {
                self.is_spent = true;
                Err(fault)
            }
        }
    }

    /// Takes the next piece of the input: writes the images and messages of the lines that it ends. It flushes nothing.
    ///
    /// # Errors
    ///
    /// `WriteOut` where a call of `out` failed, `WriteMessages` where one of `err` did. The images and messages of the
    /// lines before are whole; of this line's the sink took a beginning. From then on the filter is spent: every call
    /// returns `Spent` and calls no sink.
    pub fn feed<O: Sink, E: Sink>(
        &mut self,
        piece: &[u8],
        out: &mut O,
        err: &mut E,
    ) -> Result<(), RunFault>
        ensures feeds { (options : Options) (text : List ℕ) → IsAfter options self.old text
            → Feeds options (taken (O.took out.old out.new) (E.took err.old err.new)) self.new
            text (text ++ piece.now) result }
        ensures bytes { All (λ b. b < 256) piece.now }
        ensures sinks { self.old.is_spent ≡ false
            → FlushesNeither O.Sink E.Sink out.old out.new err.old err.new result }
        ensures spent { OnErr result (self.new.is_spent ≡ true) }
        ensures spent_before { self.old.is_spent ≡ true
            → (result ≡ Err RunFault.Spent) × (self.new ≡ self.old)
            × (out.new ≡ out.old) × (err.new ≡ err.old) }
    {
        if self.is_spent {
            return Err(RunFault::Spent);
        }
        let mut room = Room::new();
        let mut rest = piece;
        while let Some((line, later)) = split_line(rest) {
            self.hold(line);
            self.end_line(&mut room, out, err)?;
            rest = later;
        }
        self.hold(rest);
        Ok(())
    }

    /// Ends the input: writes the image or the message of the last line, if no LF ends it, and then flushes both sinks,
    /// the images first.
    ///
    /// # Errors
    ///
    /// `WriteOut` where a call of `out` failed, `WriteMessages` where one of `err` did, in that line or in a flush. A
    /// filter that was spent returns `Spent` and calls no sink.
    pub fn finish<O: Sink, E: Sink>(mut self, out: &mut O, err: &mut E) -> Result<Status, RunFault>
        ensures sends { (options : Options) (text : List ℕ) → IsAfter options self text
            → Sends options.run (taken (O.took out.old out.new) (E.took err.old err.new))
            (ended_script options text) (script options text) result }
        ensures status { (options : Options) (text : List ℕ) → IsAfter options self text
            → IfOk result (λ status. status ≡ status_of (script options text)) }
        ensures flushed { FlushesImagesFirst (O.is_flushed out.old) (O.is_flushed out.new)
            (E.is_flushed err.old) (E.is_flushed err.new) result }
        ensures counts { self.is_spent ≡ false
            → CountsFault (O.failures out.old) (O.failures out.new)
            (E.failures err.old) (E.failures err.new) result }
        ensures passed_on { PassesOnFirst (O.buffers_nothing out.new) result }
        ensures spent { self.is_spent ≡ true → (result ≡ Err RunFault.Spent)
            × (out.new ≡ out.old) × (err.new ≡ err.old) }
    {
        if self.is_spent {
            return Err(RunFault::Spent);
        }
        self.end_open_line(out, err)?;
        flush_both(self.status, out, err)
    }

    /// Ends the open line, if it has a byte.
    fn end_open_line<O: Sink, E: Sink>(&mut self, out: &mut O, err: &mut E) -> Result<(), RunFault>
        ensures feeds { (options : Options) (text : List ℕ) → IsAfter options self.old text → (all : List ℕ)
            × (script options text ≡ ended_script options all ++ flushes ∷ [])
            × Feeds options (taken (O.took out.old out.new) (E.took err.old err.new)) self.new text all result }
        ensures sinks { FlushesNeither O.Sink E.Sink out.old out.new err.old err.new result }
    {
        if self.line.is_empty() {
            return Ok(());
        }
        self.end_line(&mut Room::new(), out, err)
    }
}

/// Flushes the images, and then the messages. Returns this status.
fn flush_both<O: Sink, E: Sink>(
    status: Status,
    out: &mut O,
    err: &mut E,
) -> Result<Status, RunFault>
    ensures sends { (run : RunValues) → MatchResult result
        (λ _. Took run (taken (O.took out.old out.new) (E.took err.old err.new)) (flushes ∷ []))
        (Stops run (taken (O.took out.old out.new) (E.took err.old err.new)) (flushes ∷ [])) }
    ensures status { IfOk result (λ same. same ≡ status) }
    ensures flushed { FlushesImagesFirst (O.is_flushed out.old) (O.is_flushed out.new)
        (E.is_flushed err.old) (E.is_flushed err.new) result }
    ensures counts { CountsFault (O.failures out.old) (O.failures out.new)
        (E.failures err.old) (E.failures err.new) result }
    ensures passed_on { PassesOnFirst (O.buffers_nothing out.new) result }
{
    let Ok(()) = out.flush() else {
        return Err(RunFault::WriteOut);
    };
    let Ok(()) = err.flush() else {
        return Err(RunFault::WriteMessages);
    };
    Ok(status)
}
