//! Runs a script from its bytes to the text that it prints.

ghost use Rattle.std.specs.Prelude.{◌≡◌, ◌+◌, ◌≤◌, List, ℕ, Option, OnOk, OnErr, IfErr, IsErr, IsErrOf, MatchBool, MatchResult};
ghost use Rattle.std.specs.Io.KnownBytes.{Appends, IsAtEnd};
ghost use Rattle.dq_base.specs.Faults.{Rose};
ghost use Rattle.dq_base.specs.Sink.{AppendsFront};
ghost use Rattle.script_grammar.specs.ScriptSize.{line_count_limit};
ghost use Rattle.script_grammar.specs.Lines.{to_come};
ghost use Rattle.script_runner.specs.Run.{Stage as Shown, step, text_of};
ghost use Rattle.script_runner.specs.Scenes.{closing_of, holds, journal_of};
ghost use Rattle.script_runner.specs.Ending.{Breaks, Ended, Ran, Reached, ReadWhole, Stopped, HasLine, fault_line};

use crate::node_script::NodeScript;
use crate::printing::{PrintFault, print};
use crate::said::LineSaid;
use crate::script_mode::ScriptMode;
use dq_base::{Failed, Sink, Source};
use script_cluster::{ClusterJournal, NodePlace};
use script_grammar::{EventFault, LineEnd, LineFault, LineReader, MAX_LINES};
use std::alloc::{AllocError, Global};

/// How running a script ended.
#[derive(Clone, Copy, Debug, PartialEq, Eq)]
pub enum Outcome {
    /// The script was read to its end and printed what it gives.
    Done,
    /// The first line that isn't in the grammar, or that names what isn't there, has this number, from 1.
    Script(u64),
    /// The script has more lines or events, or makes more bytes of messages, than one may.
    Large,
    /// The source failed.
    ReadFault,
    /// The sink failed.
    WriteFault,
    /// There is not enough memory.
    NoMemory,
    /// A node failed for a cause that is a bug of the program.
    Internal,
}

impl From<LineFault> for Outcome {
    ghost use Rattle.script_runner.specs.Ending.{line_outcome};

    ghost from_gives = { λ fault outcome. outcome ≡ line_outcome fault };

    fn from(fault: LineFault) -> Outcome {
        match fault {
            LineFault::Source => Outcome::ReadFault,
            LineFault::NoMemory => Outcome::NoMemory,
        }
    }
}

impl From<PrintFault> for Outcome {
    ghost use Rattle.script_runner.specs.Ending.{print_outcome};

    ghost from_gives = { λ fault outcome. outcome ≡ print_outcome fault };

    fn from(fault: PrintFault) -> Outcome {
        match fault {
            PrintFault::Sink => Outcome::WriteFault,
            PrintFault::NoMemory => Outcome::NoMemory,
        }
    }
}

impl From<AllocError> for Outcome {
    ghost use Rattle.std.specs.Prelude.{◌≡◌};
    ghost use Rattle.script_runner.specs.declared.run.Outcome.TheVariants.{NoMemory};

    ghost from_gives = { λ _ outcome. outcome ≡ NoMemory };

    fn from(_error: AllocError) -> Outcome {
        Outcome::NoMemory
    }
}

/// Does what the line of this number says, and prints what was said then.
fn run_line<P: NodePlace, K: Sink>(
    alloc: Global,
    scene: &mut ScriptMode<P>,
    number: u64,
    line: &[u8],
    sink: &mut K,
) -> Result<(), Outcome>
    requires { number ≤ line_count_limit }
    ensures ok { OnOk result (Ran P.knows (λ (s : Shown). step s number line.now)
        (holds P.shows scene.old) (holds P.shows scene.new) (K.written sink.old) (K.written sink.new)) }
    ensures err { IfErr result (λ outcome. Breaks P.knows outcome number (λ (s : Shown). step s number line.now)
        (holds P.shows scene.old) (holds P.shows scene.new) (K.written sink.old) (K.written sink.new)) }
    ensures write { IsErrOf result Outcome.WriteFault → Rose (K.faults sink.old) (K.faults sink.new) }
    ensures count { K.faults sink.old ≤ K.faults sink.new }
{
    let mut said = LineSaid::nothing(alloc);
    match scene.take(alloc, line, &mut said) {
        Ok(()) => {
            print(alloc, &said, sink)?;
            Ok(())
        }
        Err(EventFault::NotThere) => {
            print(alloc, &said, sink)?;
            Err(Outcome::Script(number))
        }
        Err(EventFault::TooMany) => {
            print(alloc, &said, sink)?;
            Err(Outcome::Large)
        }
        Err(EventFault::NoMemory) => Err(Outcome::NoMemory),
        Err(EventFault::Internal) => Err(Outcome::Internal),
    }
}

/// Reads the next line and does what it says. Answers whether the script may continue: it has ended where it must not.
fn run_next<P: NodePlace, S: Source, K: Sink>(
    alloc: Global,
    lines: &mut LineReader,
    scene: &mut ScriptMode<P>,
    number: u64,
    source: &mut S,
    sink: &mut K,
) -> Result<bool, Outcome>
    requires { number ≤ line_count_limit }
    // From wherever the script came, it comes one line further, or it ends.
    ensures goes { (first written : Option (List ℕ)) →
        Reached P.knows first (to_come lines.old (S.left source.old)) written (K.written sink.old) (holds P.shows scene.old) number →
        MatchResult result
        (λ more. MatchBool more
        (Reached P.knows first (to_come lines.new (S.left source.new)) written (K.written sink.new) (holds P.shows scene.new) (number + 1))
        (ReadWhole P.knows first (S.left source.new) written (K.written sink.new) (holds P.shows scene.new)))
        (λ outcome. Stopped P.knows outcome (journal_of (holds P.shows scene.new)) first (S.left source.new) written (K.written sink.new)) }
    ensures read { IsErrOf result Outcome.ReadFault → Rose (S.faults source.old) (S.faults source.new) }
    ensures write { IsErrOf result Outcome.WriteFault → Rose (K.faults sink.old) (K.faults sink.new) }
    ensures source_count { S.faults source.old ≤ S.faults source.new }
    ensures sink_count { K.faults sink.old ≤ K.faults sink.new }
{
    match lines.next_line(source)? {
        LineEnd::Feed => {
            run_line(alloc, scene, number, lines.line(), sink)?;
            Ok(true)
        }
        LineEnd::Input => {
            let line = lines.line();
            if !line.is_empty() {
                run_line(alloc, scene, number, line, sink)?;
            }
            Ok(false)
        }
        LineEnd::TooLong => Err(Outcome::Script(number)),
    }
}

/// Reads what follows the last line that a script may have: nothing may.
fn run_past<P: NodePlace, S: Source>(lines: &mut LineReader, source: &mut S) -> Result<(), Outcome>
    ensures goes { (first written printed : Option (List ℕ)) (at : _) →
        Reached P.knows first (to_come lines.old (S.left source.old)) written printed at (line_count_limit + 1) →
        MatchResult result
        (λ _. ReadWhole P.knows first (S.left source.new) written printed at)
        (λ outcome. Stopped P.knows outcome (journal_of at) first (S.left source.new) written printed) }
    ensures read { IsErrOf result Outcome.ReadFault → Rose (S.faults source.old) (S.faults source.new) }
    ensures write { IsErrOf result Outcome.WriteFault → ⊥ }
    ensures source_count { S.faults source.old ≤ S.faults source.new }
{
    match lines.fill(source) {
        Ok(false) => Ok(()),
        Ok(true) => Err(Outcome::Large),
        Err(Failed) => Err(Outcome::ReadFault),
    }
}

/// Runs the lines of a script in order, up to the first that isn't in the grammar.
fn run_lines<P: NodePlace, S: Source, K: Sink>(
    alloc: Global,
    lines: &mut LineReader,
    scene: &mut ScriptMode<P>,
    source: &mut S,
    sink: &mut K,
) -> Result<(), Outcome>
    ensures goes { (first written : Option (List ℕ)) →
        Reached P.knows first (to_come lines.old (S.left source.old)) written (K.written sink.old) (holds P.shows scene.old) 1 →
        MatchResult result
        (λ _. ReadWhole P.knows first (S.left source.new) written (K.written sink.new) (holds P.shows scene.new))
        (λ outcome. Stopped P.knows outcome (journal_of (holds P.shows scene.new)) first (S.left source.new) written (K.written sink.new)) }
    ensures read { IsErrOf result Outcome.ReadFault → Rose (S.faults source.old) (S.faults source.new) }
    ensures write { IsErrOf result Outcome.WriteFault → Rose (K.faults sink.old) (K.faults sink.new) }
    ensures source_count { S.faults source.old ≤ S.faults source.new }
    ensures sink_count { K.faults sink.old ≤ K.faults sink.new }
{
    for number in 1..=MAX_LINES {
        if !run_next(alloc, lines, scene, number, source, sink)? {
            return Ok(());
        }
    }
    run_past::<P, S>(lines, source)
}

/// Shows how all stand, at the end of a script.
fn close<P: NodePlace, K: Sink>(
    alloc: Global,
    scene: &ScriptMode<P>,
    sink: &mut K,
) -> Result<(), PrintFault>
    ensures ok { OnOk result (Appends (K.written sink.old) (K.written sink.new) (text_of (closing_of (holds P.shows scene.now)))) }
    ensures err { OnErr result (AppendsFront (K.written sink.old) (K.written sink.new) (text_of (closing_of (holds P.shows scene.now)))) }
    ensures write { IsErrOf result PrintFault.Sink → Rose (K.faults sink.old) (K.faults sink.new) }
    ensures count { K.faults sink.old ≤ K.faults sink.new }
{
    let said = scene.closing(alloc)?;
    print(alloc, &said, sink)
}

/// Runs the lines of a script in order, and shows how all are at its end.
fn run_whole<P: NodePlace, S: Source, K: Sink>(
    alloc: Global,
    lines: &mut LineReader,
    scene: &mut ScriptMode<P>,
    source: &mut S,
    sink: &mut K,
) -> Outcome
    ensures goes { (first written : Option (List ℕ)) →
        Reached P.knows first (to_come lines.old (S.left source.old)) written (K.written sink.old) (holds P.shows scene.old) 1 →
        Stopped P.knows result (journal_of (holds P.shows scene.new)) first (S.left source.new) written (K.written sink.new) }
    ensures read { result ≡ Outcome.ReadFault → Rose (S.faults source.old) (S.faults source.new) }
    ensures write { result ≡ Outcome.WriteFault → Rose (K.faults sink.old) (K.faults sink.new) }
    ensures source_count { S.faults source.old ≤ S.faults source.new }
    ensures sink_count { K.faults sink.old ≤ K.faults sink.new }
{
    match run_lines(alloc, lines, scene, source, sink) {
        Ok(()) => match close(alloc, scene, sink) {
            Ok(()) => Outcome::Done,
            Err(PrintFault::Sink) => Outcome::WriteFault,
            Err(PrintFault::NoMemory) => Outcome::NoMemory,
        },
        Err(outcome) => outcome,
    }
}

/// Prints the line of a script's fault, if it has one. After `Err` a front of it is printed.
fn print_fault<K: Sink>(alloc: Global, outcome: Outcome, sink: &mut K) -> Result<(), PrintFault>
    ensures ok { OnOk result (Appends (K.written sink.old) (K.written sink.new) (fault_line outcome)) }
    ensures err { OnErr result (AppendsFront (K.written sink.old) (K.written sink.new) (fault_line outcome)) }
    ensures only { IsErr result → HasLine outcome }
    ensures write { IsErrOf result PrintFault.Sink → Rose (K.faults sink.old) (K.faults sink.new) }
    ensures count { K.faults sink.old ≤ K.faults sink.new }
{
    match outcome {
        Outcome::Script(line) => {
            let text = format!(in alloc; "error line {line}\n")?;
            sink.write_all(text.as_bytes())?;
            Ok(())
        }
        Outcome::Large => {
            sink.write_all("error large\n".as_bytes())?;
            Ok(())
        }
        Outcome::Done
        | Outcome::ReadFault
        | Outcome::WriteFault
        | Outcome::NoMemory
        | Outcome::Internal => Ok(()),
    }
}

/// Runs the script that the source gives, over nodes at places like this one or over state machines, and prints to the sink what the script's
/// run says. The journal is that of this run afterwards; what it held before is dropped.
///
/// The input is read in pieces. Held are one piece, one line, and what the script makes. It returns on every input, as far as the calls
/// of the source, the sink and the places return.
///
/// - `Done`: the script was read to its end, it has no fault, and its text was printed.
/// - `Script(line)`: that line is the first that isn't in the grammar or that names what isn't there; the text of the run was printed,
///   with `error line` and its number at the end.
/// - `Large`: the line after the millionth, an event after the twenty thousandth, or an event whose messages have too many bytes is
///   the first fault; the text of the run was printed, with `error large` at the end.
/// - `ReadFault`, `WriteFault`: the source, the sink failed, and its count of faults rose; a front of the run's text was printed. So it
///   is after `NoMemory` and `Internal`, which have no count as their cause.
///
/// What was read, and what came of the events at nodes, decides this: unless the source is at its end, the fault and the text are those
/// of every script that begins with the bytes read. So nothing was printed of a line that was read in part.
pub fn run_script<P: NodePlace, S: Source, K: Sink>(
    alloc: Global,
    place: P,
    source: &mut S,
    sink: &mut K,
    journal: &mut ClusterJournal,
) -> Outcome
    ensures ended { Ended P.knows result journal.new (S.left source.old) (S.left source.new) (K.written sink.old) (K.written sink.new) }
    ensures read_fault { result ≡ Outcome.ReadFault → Rose (S.faults source.old) (S.faults source.new) }
    ensures write_fault { result ≡ Outcome.WriteFault → Rose (K.faults sink.old) (K.faults sink.new) }
    ensures source_count { S.faults source.old ≤ S.faults source.new }
    ensures sink_count { K.faults sink.old ≤ K.faults sink.new }
{
    let mut lines = match LineReader::new(alloc) {
        Ok(lines) => lines,
        Err(AllocError) => return Outcome::NoMemory,
    };
    let mut scene = ScriptMode::Nodes(NodeScript::Opening { place });
    let outcome = run_whole(alloc, &mut lines, &mut scene, source, sink);
    *journal = scene.into_journal(alloc);
    match print_fault(alloc, outcome, sink) {
        Ok(()) => outcome,
        Err(PrintFault::Sink) => Outcome::WriteFault,
        Err(PrintFault::NoMemory) => Outcome::NoMemory,
    }
}
