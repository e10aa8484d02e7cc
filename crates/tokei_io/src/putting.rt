//! A text that is put behind what a writer holds.
ghost use Rattle.std.specs.Prelude.{◌≡◌, ◌≢◌, Err, IfErr, OnOk};
ghost use Rattle.std.specs.Io.KnownBytes.{Appends};
ghost use Rattle.tokei_io.specs.declared.error.OutputError.TheVariants.{Memory as NoMemory, Overflow as SumOverflow, Write as WriteFault};
ghost use Rattle.tokei_io.specs.Faults.{TellsFault, PassesNoFault};
ghost use Rattle.tokei_io.specs.Printing.{CountsWriteFault};

use crate::error::OutputError;
use crate::sink::Sink;

/// Puts a text behind what the writer holds. The only refusal is a fault of the writer, after which
/// nothing is said of what was written.
pub fn put<W: Sink>(writer: &mut W, text: &[u8]) -> Result<(), OutputError>
    ensures bytes { OnOk result (Appends (W.contents writer.old) (W.contents writer.new) text.now) }
    ensures faults { CountsWriteFault W.faults writer.old writer.new result }
    ensures fault { TellsFault W.faults writer.old writer.new result WriteFault }
    ensures no_fault { PassesNoFault W.faults writer.old writer.new result WriteFault }
    ensures untouched { IfErr result (λ e. e ≢ WriteFault
        → W.contents writer.new ≡ W.contents writer.old) }
    ensures memory { result ≢ Err NoMemory }
    ensures overflow { result ≢ Err SumOverflow }
{
    match writer.put(text) {
        Ok(()) => Ok(()),
        Err(_) => Err(OutputError::Write),
    }
}
