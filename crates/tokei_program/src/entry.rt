//! The whole program but for its real ends.
ghost use Rattle.std.specs.Prelude.{◌≡◌, ◌≢◌, ◌<◌, ◌≤◌, ◌⊎◌, [], false, true, IfErr, IfOk, None, Ok, OnErr, OnOk, Some, map, string_bytes};
ghost use Rattle.tokei.specs.Output.{Outputs};
ghost use Rattle.tokei.specs.Refused.{IsBegun};
ghost use Rattle.tokei.specs.Shapes.{HasShape};
ghost use Rattle.tokei.specs.Sums.{Fits};
ghost use Rattle.tokei_cli.specs.CommandLines.{excludes_of, inputs_of};
ghost use Rattle.tokei_folders.specs.Answers.{Told};
ghost use Rattle.tokei_program.specs.Choices.{Chooses, HasUnread};
ghost use Rattle.tokei_program.specs.Beside.{AnyMet, IsBeside, SaysBeside, ShowsAsked, ShowsNotes, MetIn};
ghost use Rattle.tokei_invocation.specs.Configs.{AreFlaws, IsConfig};
ghost use Rattle.tokei_invocation.specs.Endings.{HasFailed};
ghost use Rattle.tokei_invocation.specs.Messages.{Says};
ghost use Rattle.tokei_invocation.specs.OutputEndings.{IsEndingOfOutput};
ghost use Rattle.tokei_invocation.specs.Statuses.{status_of};
ghost use Rattle.tokei_invocation.specs.Tables.{place_of_table, table_at};
ghost use Rattle.tokei_program.specs.Jobs.{IsJob};
ghost use Rattle.tokei_program.specs.Leaving.{HasNoFault, Leaves, LeavesAsked, LeavesCounts};
ghost use Rattle.tokei_program.specs.Reasons.{HasFault, IsEndingBy, IsEndingOf, SaysWhy};
ghost use Rattle.tokei_program.specs.Shapes.{Answers, AnswersBy, CountsSome, ListsSome};
ghost use Rattle.tokei_program.specs.Writing.{Writes, WritesAsked, WritesCounts, WritesList};
ghost use Rattle.tokei_folders.specs.AsTheyWere.{SameTree, NoFault};
ghost use Rattle.tokei_walk.specs.Walks.{texts_of};

use crate::choices::Choices;
use crate::preparing::{Preparation, Request, prepare};
use std::alloc::Global;
use std::mem::forget;
use tokei::{Folders, LanguageTable, Sink, Source, put, run};
use tokei_cli::{Cli, CliError, print_supported_languages};
use tokei_invocation::{
    Ending, Env, conclude, ended, passed_text, run_ended, say_beside, shown_notes, table_of,
};

/// Runs what was prepared over a table. What is to be said beside it is answered.
fn write_prepared<F: Folders, W: Sink>(
    alloc: Global,
    request: &Request,
    table: &LanguageTable,
    prepared: &Preparation,
    folders: &mut F,
    out: &mut W,
) -> Result<String, Ending>
    requires excludes { texts_of prepared.now.job.ignored.items ≡ excludes_of request.now.cli.now }
    ensures same { SameTree F.tree folders.old folders.new }
    ensures told { Told (F.tree folders.old) (λ t. OnOk result (Outputs prepared.now.job.wanted
        table.now prepared.now.job t (W.contents out.old) (W.contents out.new))) }
    ensures shaped { OnOk result (HasShape prepared.now.job.wanted table.now prepared.now.job
        (W.contents out.old) (W.contents out.new)) }
    ensures beside { IfOk result (λ text.
        ShowsNotes AnyMet request.now.cli.now (string_bytes text)) }
    ensures noted { Told (F.tree folders.old) (λ t.
        table_at t (place_of_table request.now.env.now request.now.cli.now) ≡ Some (Ok table.now)
        → AreFlaws table.now request.now.env.now t prepared.now.flaws.items
        → IsJob request.now.cli.now prepared.now.job
        → IsConfig table.now request.now.cli.now request.now.env.now t prepared.now.job.config
        → IfOk result (λ text.
        ShowsNotes (MetIn request.now.env.now t) request.now.cli.now (string_bytes text))) }
    ensures fault { NoFault W.faults out.old out.new result }
    ensures left { Told (F.tree folders.old) (λ t. OnErr result
        (HasNoFault W.faults out.old out.new → Outputs prepared.now.job.wanted table.now
        prepared.now.job t (W.contents out.old) (W.contents out.new)
        ⊎ IsBegun prepared.now.job.wanted table.now prepared.now.job t
        (W.contents out.old) (W.contents out.new))) }
    ensures cause { Told (F.tree folders.old) (λ t. IfErr result (IsEndingOfOutput
        (¬ Fits prepared.now.job.wanted table.now prepared.now.job t)
        (HasFault W.faults out.old out.new))) }
    ensures failed { IfErr result (λ e. status_of e ≡ 1) }
{
    match run(alloc, table, folders, &prepared.job, out) {
        Ok(notes) => {
            let shown = shown_notes(alloc, folders, &notes)?;
            let text = passed_text(alloc, table, request.cli, &shown, &prepared.flaws)?;
            Ok(text)
        }
        Err(error) => Err(run_ended(alloc, error, folders, out)),
    }
}

/// Counts what a command line names, and writes what it wants of that. What is to be said beside it
/// is answered.
fn write_counts<F: Folders, S: Source, W: Sink>(
    alloc: Global,
    request: &Request,
    choices: Choices,
    folders: &mut F,
    input: &mut S,
    out: &mut W,
) -> Result<String, Ending>
    requires chosen { Chooses request.now.cli.now choices.wanted choices.sort choices.numbers }
    ensures same { SameTree F.tree folders.old folders.new }
    ensures told { Told (F.tree folders.old) (λ t. OnOk result (WritesCounts
        request.now.cli.now request.now.env.now t (S.remaining input.old)
        (W.contents out.old) (W.contents out.new))) }
    ensures shaped { OnOk result (CountsSome request.now.cli.now
        (W.contents out.old) (W.contents out.new)) }
    ensures beside { IfOk result (λ text.
        ShowsNotes AnyMet request.now.cli.now (string_bytes text)) }
    ensures noted { Told (F.tree folders.old) (λ t. IfOk result (λ text.
        ShowsNotes (MetIn request.now.env.now t) request.now.cli.now (string_bytes text))) }
    ensures fault { NoFault W.faults out.old out.new result }
    ensures left { Told (F.tree folders.old) (λ t. OnErr result
        (HasNoFault W.faults out.old out.new → LeavesCounts request.now.cli.now request.now.env.now
        t (S.remaining input.old) (W.contents out.old) (W.contents out.new))) }
    ensures cause { Told (F.tree folders.old) (λ t. IfErr result (IsEndingBy false
        request.now.cli.now request.now.env.now t (S.remaining input.old)
        (HasFailed (S.remaining input.old) (S.faults input.old) (S.faults input.new))
        (HasFault W.faults out.old out.new))) }
    ensures failed { IfErr result (λ e. status_of e ≡ 1) }
{
    let table = table_of(alloc, request.cli, request.env, folders)?;
    let prepared = prepare(alloc, request, choices, &table, folders, input)?;
    let said = write_prepared(alloc, request, &table, &prepared, folders, out);
    // the program ends next: to free each text of the table would be a tenth of a short run
    forget(table);
    said
}

/// Lists the languages of the table that a command line names.
fn write_list<F: Folders, W: Sink>(
    alloc: Global,
    cli: &Cli,
    env: &Env,
    folders: &mut F,
    out: &mut W,
) -> Result<String, Ending>
    ensures same { SameTree F.tree folders.old folders.new }
    ensures told { Told (F.tree folders.old) (λ t. OnOk result (WritesList
        cli.now env.now t (W.contents out.old) (W.contents out.new))) }
    ensures shaped { OnOk result (ListsSome (W.contents out.old) (W.contents out.new)) }
    ensures beside { IfOk result (λ text. string_bytes text ≡ []) }
    ensures fault { NoFault W.faults out.old out.new result }
    ensures left { OnErr result (HasNoFault W.faults out.old out.new
        → W.contents out.new ≡ W.contents out.old) }
    ensures cause { Told (F.tree folders.old) (λ t. IfErr result (IsEndingBy true
        cli.now env.now t None ⊥ (HasFault W.faults out.old out.new))) }
    ensures failed { IfErr result (λ e. status_of e ≡ 1) }
{
    let table = table_of(alloc, cli, env, folders)?;
    match print_supported_languages(alloc, &table, out) {
        Ok(()) => Ok(String::new(alloc)),
        Err(error) => Err(ended(alloc, error, out)),
    }
}

/// Does what a command line asks for, and answers what is to be said on standard error beside it. A
/// refused one is seen before anything is read or written.
fn carry_out<F: Folders, S: Source, W: Sink>(
    alloc: Global,
    cli: &Cli,
    env: &Env,
    folders: &mut F,
    input: &mut S,
    out: &mut W,
) -> Result<String, Ending>
    requires named { inputs_of cli.now ≢ [] }
    ensures same { SameTree F.tree folders.old folders.new }
    ensures told { Told (F.tree folders.old) (λ t. OnOk result (WritesAsked
        cli.now env.now t (S.remaining input.old) (W.contents out.old) (W.contents out.new))) }
    ensures shaped { OnOk result (AnswersBy cli.now.print_languages cli.now
        (W.contents out.old) (W.contents out.new)) }
    ensures beside { IfOk result (λ text. ShowsAsked AnyMet cli.now (string_bytes text)) }
    ensures noted { Told (F.tree folders.old) (λ t. IfOk result (λ text.
        ShowsAsked (MetIn env.now t) cli.now (string_bytes text))) }
    ensures fault { NoFault W.faults out.old out.new result }
    ensures left { Told (F.tree folders.old) (λ t. OnErr result
        (HasNoFault W.faults out.old out.new → LeavesAsked cli.now env.now t
        (S.remaining input.old) (W.contents out.old) (W.contents out.new))) }
    ensures unwritten { IfErr result (λ e. status_of e ≡ 2 → out.new ≡ out.old) }
    ensures unread { IfErr result (λ e. status_of e ≡ 2
        → (folders.new ≡ folders.old) × (input.new ≡ input.old)) }
    ensures refused { IfErr result (λ e. status_of e ≡ 2 → HasUnread cli.now) }
    ensures cause { Told (F.tree folders.old) (λ t. IfErr result (λ e. status_of e ≡ 1
        → IsEndingBy cli.now.print_languages cli.now env.now t (S.remaining input.old)
        (HasFailed (S.remaining input.old) (S.faults input.old) (S.faults input.new))
        (HasFault W.faults out.old out.new) e)) }
{
    let choices = Choices::of(alloc, cli)?;
    if cli.print_languages {
        write_list(alloc, cli, env, folders, out)
    } else {
        write_counts(alloc, &Request { cli, env }, choices, folders, input, out)
    }
}

/// Does what the words ask for, and answers what is to be said on standard error beside it.
fn answer_words<F: Folders, S: Source, W: Sink>(
    alloc: Global,
    words: &[&str],
    env: &Env,
    folders: &mut F,
    input: &mut S,
    out: &mut W,
) -> Result<String, Ending>
    ensures same { SameTree F.tree folders.old folders.new }
    ensures told { Told (F.tree folders.old) (λ t. OnOk result
        (Writes (map (λ w. w.now) words.now) env.now t (S.remaining input.old) (W.contents out.old)
        (W.contents out.new))) }
    ensures shaped { OnOk result (Answers (map (λ w. w.now) words.now)
        (W.contents out.old) (W.contents out.new)) }
    ensures beside { IfOk result (λ text. IsBeside AnyMet (map (λ w. w.now) words.now)
        (W.contents out.old) (W.contents out.new) (string_bytes text)) }
    ensures noted { Told (F.tree folders.old) (λ t. IfOk result (λ text.
        IsBeside (MetIn env.now t) (map (λ w. w.now) words.now)
        (W.contents out.old) (W.contents out.new) (string_bytes text))) }
    ensures fault { NoFault W.faults out.old out.new result }
    ensures left { Told (F.tree folders.old) (λ t. OnErr result
        (HasNoFault W.faults out.old out.new → Leaves (map (λ w. w.now) words.now) env.now t
        (S.remaining input.old) (W.contents out.old) (W.contents out.new))) }
    ensures unwritten { IfErr result (λ e. status_of e ≡ 2 → out.new ≡ out.old) }
    ensures unread { IfErr result (λ e. status_of e ≡ 2
        → (folders.new ≡ folders.old) × (input.new ≡ input.old)) }
    ensures cause { Told (F.tree folders.old) (λ t. IfErr result (λ e. status_of e ≡ 1
        → IsEndingOf (map (λ w. w.now) words.now) env.now t (S.remaining input.old)
        (HasFailed (S.remaining input.old) (S.faults input.old) (S.faults input.new))
        (HasFault W.faults out.old out.new) e)) }
{
    match Cli::from_words(alloc, words) {
        Ok(cli) => carry_out(alloc, &cli, env, folders, input, out),
        Err(CliError::Asked(text)) => match put(out, text.as_bytes()) {
            Ok(()) => Ok(String::new(alloc)),
            Err(error) => Err(ended(alloc, error, out)),
        },
        Err(CliError::Refused(text)) => Err(Ending::Refused(text)),
        Err(CliError::Memory) => Err(Ending::Memory),
    }
}

/// Runs the program with these words, of which the first is its name, and answers its exit status:
/// 0 where it did what was asked, 2 where the command line is refused, 1 where something failed.
/// What is asked for goes to `out`, and what is to be said beside it to `err`.
///
/// With status 0 `out` has gained, over a known tree, help, the version, or what the command line
/// of the words asks for: the list of languages, or what `run` writes for its job. Over folders
/// that tell no tree a writer whose contents are known has gained help, the version, the list of
/// some table's languages, or what a run writes for a job of that command line over some languages;
/// the system's writer tells no contents, so of it this says nothing. `err` has gained nothing, or
/// notes of what was passed over and of configuration files that count as empty, as many as the
/// command line shows. A refused command line is seen before anything is read or written. Any other
/// status than 1 says that neither writer had a fault. Where the status is 1 and `err` had no
/// fault, one message stands in it: over a known tree a true one on the table, the earlier results,
/// the first root, a sum or the writer, or that memory ran out, which may be said of any failure.
/// Where `out` had no fault, it has over a known tree what it held, all of what was asked for, or
/// the heading of a stream and the rows of the first files, and nothing else. Once a run has begun,
/// the memory of its table isn't given back, since the process mostly ends next.
pub fn program<F: Folders, S: Source, W: Sink, E: Sink>(
    alloc: Global,
    words: &[&str],
    env: &Env,
    folders: &mut F,
    input: &mut S,
    out: &mut W,
    err: &mut E,
) -> u8
    ensures same { SameTree F.tree folders.old folders.new }
    ensures written { Told (F.tree folders.old) (λ t. result ≡ 0
        → Writes (map (λ w. w.now) words.now) env.now t (S.remaining input.old) (W.contents out.old)
        (W.contents out.new)) }
    ensures shaped { result ≡ 0 → Answers (map (λ w. w.now) words.now)
        (W.contents out.old) (W.contents out.new) }
    ensures beside { result ≡ 0
        → SaysBeside AnyMet (map (λ w. w.now) words.now) (W.contents out.old) (W.contents out.new)
        (E.contents err.old) (E.contents err.new) }
    ensures noted { Told (F.tree folders.old) (λ t. result ≡ 0
        → SaysBeside (MetIn env.now t) (map (λ w. w.now) words.now)
        (W.contents out.old) (W.contents out.new) (E.contents err.old) (E.contents err.new)) }
    ensures left { Told (F.tree folders.old) (λ t. result ≡ 1
        → HasNoFault W.faults out.old out.new
        → Leaves (map (λ w. w.now) words.now) env.now t (S.remaining input.old) (W.contents out.old)
        (W.contents out.new)) }
    ensures status { result ≤ 2 }
    ensures refused { result ≡ 2 → out.new ≡ out.old }
    ensures unread { result ≡ 2 → (folders.new ≡ folders.old) × (input.new ≡ input.old) }
    ensures out_fault { W.faults out.old < u64.MAX → result ≢ 1
        → W.faults out.new ≡ W.faults out.old }
    ensures err_fault { E.faults err.old < u64.MAX → result ≢ 1
        → E.faults err.new ≡ E.faults err.old }
    ensures said { E.faults err.old < u64.MAX → E.faults err.new ≡ E.faults err.old
        → result ≡ 1 → Says (E.contents err.old) (E.contents err.new) }
    ensures why { Told (F.tree folders.old) (λ t. E.faults err.old < u64.MAX
        → E.faults err.new ≡ E.faults err.old → result ≡ 1
        → SaysWhy (map (λ w. w.now) words.now) env.now t (S.remaining input.old)
        (HasFailed (S.remaining input.old) (S.faults input.old) (S.faults input.new))
        (HasFault W.faults out.old out.new) (E.contents err.old) (E.contents err.new)) }
{
    match answer_words(alloc, words, env, folders, input, out) {
        Ok(text) => say_beside(text.as_bytes(), err),
        Err(ending) => conclude(alloc, &ending, err),
    }
}
