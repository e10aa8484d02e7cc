//! Why a run ended, said in one message.
ghost use Rattle.std.specs.Prelude.{◌≡◌, ◌≢◌, ◌<◌, ◌≤◌, ◌⊎◌, OnOk};
ghost use Rattle.std.specs.Io.KnownBytes.{Appends};
ghost use Rattle.tokei_io.specs.Faults.{faults_after};
ghost use Rattle.tokei_invocation.specs.Messages.{Says, SaysOf};
ghost use Rattle.tokei_cli.specs.Printing.{failure_text};
ghost use Rattle.tokei_invocation.specs.declared.ending.Ending.TheVariants.{Memory};
ghost use Rattle.tokei_invocation.specs.Statuses.{status_of};

use crate::ending::Ending;
use std::alloc::Global;
use tokei_cli::print_input_parse_failure;
use tokei_io::{OutputError, Sink, put};

/// What is said where there is no memory for other words.
const NO_MEMORY: &str = "Error: out of memory\n";

/// Says that the earlier results of this name are refused.
fn say_refused_input<E: Sink>(alloc: Global, name: &str, err: &mut E) -> Result<(), OutputError>
    ensures said { OnOk result (Says (E.contents err.old) (E.contents err.new)) }
    ensures told { OnOk result
        (Appends (E.contents err.old) (E.contents err.new) (failure_text name.now)
        ⊎ SaysOf Memory (E.contents err.old) (E.contents err.new)) }
    ensures faults { E.faults err.old < u64.MAX
        → E.faults err.new ≡ faults_after result (E.faults err.old) }
{
    match print_input_parse_failure(alloc, name, err) {
        Ok(()) => Ok(()),
        Err(OutputError::Write) => Err(OutputError::Write),
        Err(OutputError::Overflow) => Err(OutputError::Overflow),
        Err(OutputError::Memory) => put(err, NO_MEMORY.as_bytes()),
    }
}

/// Says how a run ended; where there is no memory for its words, that memory ran out. After a fault
/// of the writer nothing is said of what was written.
fn say<E: Sink>(alloc: Global, ending: &Ending, err: &mut E) -> Result<(), OutputError>
    ensures said { status_of ending.now ≡ 1
        → OnOk result (Says (E.contents err.old) (E.contents err.new)) }
    ensures told { OnOk result (SaysOf ending.now (E.contents err.old) (E.contents err.new)
        ⊎ SaysOf Memory (E.contents err.old) (E.contents err.new)) }
    ensures faults { E.faults err.old < u64.MAX
        → E.faults err.new ≡ faults_after result (E.faults err.old) }
{
    match ending {
        Ending::Refused(text) => put(err, text.as_bytes()),
        Ending::Input(name) => say_refused_input(alloc, name.as_str(), err),
        other => match other.line(alloc) {
            Ok(line) => put(err, line.as_bytes()),
            Err(_) => put(err, NO_MEMORY.as_bytes()),
        },
    }
}

/// Says how a run ended, and answers its exit status; 1 where nothing can be said. Where the writer
/// has no fault, it has gained what is said of the ending, or that memory ran out.
pub fn conclude<E: Sink>(alloc: Global, ending: &Ending, err: &mut E) -> u8
    ensures failed { result ≢ 0 }
    ensures status { result ≤ 2 }
    ensures refused { result ≡ 2 → status_of ending.now ≡ 2 }
    ensures fault { E.faults err.old < u64.MAX → result ≢ 1
        → E.faults err.new ≡ E.faults err.old }
    ensures said { E.faults err.old < u64.MAX → E.faults err.new ≡ E.faults err.old
        → result ≡ 1 → Says (E.contents err.old) (E.contents err.new) }
    ensures told { E.faults err.old < u64.MAX → E.faults err.new ≡ E.faults err.old
        → SaysOf ending.now (E.contents err.old) (E.contents err.new)
        ⊎ SaysOf Memory (E.contents err.old) (E.contents err.new) }
    ensures own { E.faults err.old < u64.MAX → E.faults err.new ≡ E.faults err.old
        → result ≡ status_of ending.now }
{
    match say(alloc, ending, err) {
        Ok(()) => ending.status(),
        Err(_) => 1,
    }
}

/// Says what is to be said beside an answer, and answers the exit status: 0, or 1 where it can't be
/// said.
pub fn say_beside<E: Sink>(text: &[u8], err: &mut E) -> u8
    ensures status { result ≤ 1 }
    ensures bytes { result ≡ 0 → Appends (E.contents err.old) (E.contents err.new) text.now }
    ensures fault { E.faults err.old < u64.MAX → result ≢ 1
        → E.faults err.new ≡ E.faults err.old }
    ensures failed { E.faults err.old < u64.MAX → E.faults err.new ≡ E.faults err.old
        → result ≢ 1 }
{
    match put(err, text) {
        Ok(()) => 0,
        Err(_) => 1,
    }
}
