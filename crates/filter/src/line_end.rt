//! What is done at the end of a line.
ghost use Rattle.std.specs.Prelude.{◌≡◌, ℕ, List, [], ◌∷◌, IfOk, MatchResult};
ghost use Rattle.labelcore.specs.HeldLine.{held_line};
ghost use Rattle.labelcore.specs.LineItem.{refused};
ghost use Rattle.labelcore.specs.OptionValues.{RunValues};
ghost use Rattle.filter.specs.Output.{of_line, outcome, status_of};
ghost use Rattle.filter.specs.Filter.{FlushesNeither, Stops, Took, taken};

use crate::status::{RunFault, Status};
use crate::symbol::draw_in;
use device::Sink;
use labelcore::{Fault, Item, LineBuf, Options, Scratch, parse, write_fault};
use linear::Row;

/// Room for what is made of a line: the bytes that its escaped data names, and the modules of a row. It is made once
/// for all lines of a piece: clearing it for each of them would take 6 % of the instructions of an EAN-13.
#[derive(Drop)]
pub struct Room {
    scratch: Scratch,
    row: Row,
}

impl Room {
    /// Returns empty room.
    pub fn new() -> Self {
        Room {
            scratch: Scratch::new(),
            row: Row::new(),
        }
    }
}

/// Writes the image or the message of the line with this number, and flushes nothing. Returns the status of this line.
///
/// # Errors
///
/// `WriteOut` where a call of `out` failed, `WriteMessages` where one of `err` did.
pub fn finish_line<O: Sink, E: Sink>(
    options: &Options,
    line: &LineBuf,
    number: u64,
    room: &mut Room,
    out: &mut O,
    err: &mut E,
) -> Result<Status, RunFault>
    ensures sends { (text : List ℕ) → line.now ≡ held_line text
        → MatchResult result (λ _. Took options.now.run (taken (O.took out.old out.new) (E.took err.old err.new))
        (of_line number (outcome options.now text) ∷ [])) (Stops options.now.run
        (taken (O.took out.old out.new) (E.took err.old err.new)) (of_line number (outcome options.now text) ∷ [])) }
    ensures status { (text : List ℕ) → line.now ≡ held_line text → IfOk result (λ status.
        status ≡ status_of (of_line number (outcome options.now text) ∷ [])) }
    ensures sinks { FlushesNeither O.Sink E.Sink out.old out.new err.old err.new result }
{
    match parse(options, line, &mut room.scratch) {
        Item::Skip => Ok(Status::Clean),
        Item::Refuse(fault) => refuse(number, &fault, out, err),
        Item::Draw(symbology, own, bytes) => {
            match draw_in(
                &options.run,
                &own.label,
                symbology,
                bytes,
                &mut room.row,
                out,
            ) {
                Ok(Ok(())) => Ok(Status::Clean),
                Ok(Err(fault)) => refuse(number, &fault, out, err),
                Err(_) => Err(RunFault::WriteOut),
            }
        }
    }
}

/// Writes the message of a refused line. Before it, passes on the images of earlier lines.
#[tactic(auto, unfolding(crate::specs::Output::status_of))]
fn refuse<O: Sink, E: Sink>(
    number: u64,
    fault: &Fault,
    out: &mut O,
    err: &mut E,
) -> Result<Status, RunFault>
    ensures sends { (run : RunValues) → MatchResult result
        (λ _. Took run (taken (O.took out.old out.new) (E.took err.old err.new))
        (of_line number (refused fault.now) ∷ []))
        (Stops run (taken (O.took out.old out.new) (E.took err.old err.new))
        (of_line number (refused fault.now) ∷ [])) }
    ensures status { IfOk result (λ status. status ≡ status_of (of_line number (refused fault.now) ∷ [])) }
    ensures sinks { FlushesNeither O.Sink E.Sink out.old out.new err.old err.new result }
{
    let Ok(()) = out.pass_on() else {
        return Err(RunFault::WriteOut);
    };
    match write_fault(number, fault, err) {
        Ok(()) => Ok(Status::Refused),
        Err(_) => Err(RunFault::WriteMessages),
    }
}
