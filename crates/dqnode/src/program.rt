//! All that the program does.

ghost use Rattle.std.specs.Prelude.{◌≡◌, ◌≢◌, ◌≤◌, ◌⊎◌, ◌+◌, ◌*◌, ℕ, List, [], Some, length};
ghost use Rattle.std.specs.Io.KnownBytes.{Appends, Keeps};
ghost use Rattle.dq_base.specs.Faults.{Rose};
ghost use Rattle.dq_base.specs.Sink.{AppendsFront};
ghost use Rattle.script_cluster.specs.Outcomes.{Outcome};
ghost use Rattle.script_cluster.specs.Run.{Line, Large};
ghost use Rattle.client.specs.Net.{HaveFailed};
ghost use Rattle.client.specs.Running.{HaveDialled};
ghost use Rattle.script_runner.specs.Alike.{KeepsAlike};
ghost use Rattle.script_runner.specs.Ending.{MayFollow, Anything};
ghost use Rattle.arguments.specs.declared.invocation.Serve.{Serve};
ghost use Rattle.arguments.specs.declared.invocation.Statement.{Statement};
ghost use Rattle.arguments.specs.Asking.{IsAskable};
ghost use Rattle.serve_node.specs.Rules.{GoesWell};
ghost use Rattle.dqnode.specs.Asks.{
  asks_for,
  ForStatement,
  ForGenerated,
  ForRun,
  ForServed,
  IsScript,
  IsRun,
  IsStatement,
  IsServed,
  IsCheck,
  IsNothing,
  RunsWith,
};
ghost use Rattle.dqnode.specs.Program.{words_error, Gives, Completes, BreaksOff, RunsSafely, RunsAreSafe};
ghost use Rattle.dqnode.specs.Status.{IsStatus, IsBroken, IsBrokenOff, IsServeCode};
ghost use Rattle.dqnode.specs.Statements.{StatementEnds, IsAnswered, IsOfStatement, HasLinked};
ghost use Rattle.dqnode.specs.Checks.{CheckEnds};
ghost use Rattle.dqnode.specs.Decided.{BrokenScriptsDecide, ScriptsDecide};
ghost use Rattle.dqnode.specs.Generating.{GenerateEnds, RunEnds};
ghost use Rattle.dqnode.specs.Runs.{ScriptRun, RefusesArguments, StatementRun, CheckRun, GenerateRun, ServeRun, Untouched, StatusTells};
ghost use Rattle.dqnode.specs.Serving.{WasServed};

use crate::checks::tell;
use crate::generating::{make_script, run_made};
use crate::network::Network;
use crate::scripts::script;
use crate::serving::serve_node;
use crate::statements::ask;
use crate::status::Status;
use arguments::{Invocation, read_words};
use client::Dialer;
use disk_model::Disk;
use dq_base::{Sink, Source};
use script_cluster::ClusterJournal;
use serve_node::Notes;
use serve_threads::Host;
use session_gateway::Read;
use std::alloc::Global;

/// Refuses the arguments.
fn refuse_words<K: Sink>(output: &mut K) -> Status
    ensures words { result ≡ Status.Words → Appends (K.written output.old) (K.written output.new) words_error }
    ensures write_fault { result ≡ Status.WriteFault → Rose (K.faults output.old) (K.faults output.new) }
    ensures broken { result ≢ Status.Words → AppendsFront (K.written output.old) (K.written output.new) words_error }
    ensures others { (result ≡ Status.Words) ⊎ (result ≡ Status.WriteFault) }
    ensures count { K.faults output.old ≤ K.faults output.new }
{
    match output.write_all(b"error words\n") {
        Ok(()) => Status::Words,
        Err(_) => Status::WriteFault,
    }
}

/// There is not enough memory to read the arguments, and so nothing is done.
fn give_up(alloc: Global, journal: &mut ClusterJournal) -> Status
    ensures status { result ≡ Status.NoMemory }
    ensures journal { journal.new ≡ [] }
{
    *journal = ClusterJournal::new(alloc);
    Status::NoMemory
}

/// Does what is asked for. Each clause is a field of one of the records that `dqnode` says.
#[tactic(auto, using(crate::proofs::Asked::ends_for, crate::proofs::Asked::unled_for, crate::proofs::Asked::statement_linked, crate::proofs::Asked::statement_code, crate::proofs::Idle::no_call, crate::proofs::Generated::generated_for, crate::proofs::Generated::generated_code, crate::proofs::Generated::made_for, crate::proofs::Generated::made_code, crate::proofs::ServeEnds::served_for, crate::proofs::ServeEnds::spent_for))]
fn run<S: Source, K: Sink, D: Disk, N: Dialer, H: Host<Read>, W: Notes>(
    alloc: Global,
    asked: Option<Invocation>,
    input: &mut S,
    output: &mut K,
    journal: &mut ClusterJournal,
    disk: &mut D,
    network: &mut Network<N, H, W>,
) -> u8
    requires { IsAskable asked }
    ensures done { IsScript asked → result ≡ 0 → RunsWith asked (λ kind. Completes kind journal.new (S.left input.old) (S.left input.new)
        (K.written output.old) (K.written output.new)) }
    ensures words { result ≡ 1 → IsNothing asked × Appends (K.written output.old) (K.written output.new) words_error }
    ensures only_words { IsNothing asked → (result ≡ 1) ⊎ IsBroken result }
    ensures words_input { ¬ (IsScript asked) → Keeps (S.left input.old) (S.left input.new) × (S.faults input.old ≡ S.faults input.new) }
    ensures words_journal { ¬ (IsScript asked) → ¬ (IsRun asked) → (journal.new ≡ journal.old) ⊎ ((result ≡ 7) × (journal.new ≡ [])) }
    ensures script { IsScript asked → result ≡ 2 → RunsWith asked (λ kind. (line : ℕ) × Gives kind (Some (Line line)) journal.new (S.left input.old)
        (S.left input.new) (K.written output.old) (K.written output.new)) }
    ensures large { IsScript asked → result ≡ 9 → RunsWith asked (λ kind. Gives kind (Some Large) journal.new (S.left input.old)
        (S.left input.new) (K.written output.old) (K.written output.new)) }
    ensures faulty { (result ≡ 2) ⊎ (result ≡ 9) → IsScript asked ⊎ IsRun asked }
    ensures safe { IsScript asked → RunsWith asked (λ kind. RunsSafely kind journal.new (S.left input.old) (S.left input.new)
        (K.written output.old) (K.written output.new)) }
    ensures read_fault { result ≡ 3 → IsScript asked × Rose (S.faults input.old) (S.faults input.new) }
    ensures write_fault { result ≡ 4 → Rose (K.faults output.old) (K.faults output.new) }
    ensures cut { result ≡ 3 → RunsWith asked (λ kind. BreaksOff kind Anything (S.left input.old) (S.left input.new)
        (K.written output.old) (K.written output.new)) }
    ensures broken { IsScript asked → IsBrokenOff result → RunsWith asked (λ kind. BreaksOff kind (MayFollow (S.left input.new))
        (S.left input.old) (S.left input.new) (K.written output.old) (K.written output.new)) }
    ensures words_broken { IsNothing asked → IsBroken result → AppendsFront (K.written output.old) (K.written output.new) words_error }
    ensures statement { (statement : Statement) → ForStatement statement asked → StatementEnds statement (N.net network.old.dialer) (N.net network.new.dialer)
        (K.written output.old) (K.written output.new) result }
    ensures linked { IsStatement asked → IsAnswered result → HasLinked (N.net network.old.dialer) (N.net network.new.dialer) }
    ensures no_leader { (statement : Statement) → ForStatement statement asked → result ≡ 12 → HaveDialled (N.net network.old.dialer) (N.net network.new.dialer)
        (3 * length statement.addresses) }
    ensures of_statement { IsOfStatement result → IsStatement asked }
    ensures dial_faults { HaveFailed (N.net network.old.dialer) (N.net network.new.dialer) }
    ensures dialer { ¬ (IsStatement asked) → network.new.dialer ≡ network.old.dialer }
    ensures check { IsCheck asked → CheckEnds (D.states disk.old) (D.states disk.new) (K.written output.old) (K.written output.new) result }
    ensures of_check { result ≡ 8 → IsCheck asked ⊎ IsServed asked }
    ensures disk_fault { result ≡ 5 → (IsCheck asked ⊎ IsServed asked) × Rose (D.faults disk.old) (D.faults disk.new) }
    ensures unprinted { IsCheck asked → (result ≡ 5) ⊎ (result ≡ 7) → output.new ≡ output.old }
    ensures disk { ¬ (IsCheck asked) → ¬ (IsServed asked) → disk.new ≡ disk.old }
    ensures serve_codes { IsServed asked → IsServeCode result }
    ensures host_fault { result ≡ 6 → IsServed asked × Rose (H.faults network.old.host) (H.faults network.new.host) }
    ensures of_spent { result ≡ 10 → IsServed asked }
    ensures of_internal { result ≡ 15 → IsScript asked ⊎ IsRun asked ⊎ IsServed asked }
    ensures serves { (served : Serve) → ForServed served asked → WasServed D.tells D.states D.faults H.done served network.old.host disk.old disk.new
        (record { left = H.left network.old.host; count = H.taken network.old.host })
        (record { left = H.left network.new.host; count = H.taken network.new.host }) result }
    ensures spent { (served : Serve) → ForServed served asked → result ≡ 10 → H.taken network.new.host ≡ H.taken network.old.host + served.events }
    ensures serves_well { IsServed asked → GoesWell (D.states disk.old) (D.faults disk.old) (D.faults disk.new)
        (H.faults network.old.host) (H.faults network.new.host) →
        (result ≡ 10) ⊎ (result ≡ 7) ⊎ (result ≡ 15) }
    ensures host { ¬ (IsServed asked) → network.new.host ≡ network.old.host }
    ensures generated { (number writes : ℕ) → ForGenerated number writes asked →
        GenerateEnds number writes (K.written output.old) (K.written output.new) result }
    ensures made { (number writes : ℕ) → ForRun number writes asked → RunEnds number writes journal.new (K.written output.old) (K.written output.new) result }
    ensures known { IsStatus result }
    ensures input_count { S.faults input.old ≤ S.faults input.new }
    ensures output_count { K.faults output.old ≤ K.faults output.new }
    ensures disk_count { D.faults disk.old ≤ D.faults disk.new }
{
    let status = match asked {
        Some(Invocation::Script(engine)) => script(alloc, engine, input, output, journal),
        Some(Invocation::Statement(statement)) => ask(
            alloc,
            statement,
            output,
            &mut network.dialer,
        ),
        Some(Invocation::Check) => tell(alloc, output, disk),
        Some(
            Invocation::Generate {
                number,
                count,
                run: false,
            },
        ) => make_script(alloc, number, count, output),
        Some(
            Invocation::Generate {
                number,
                count,
                run: true,
            },
        ) => run_made(alloc, number, count, output, journal),
        Some(Invocation::Serve(words)) => {
            serve_node(alloc, words, disk, &mut network.host, &mut network.notes)
        }
        None => refuse_words(output),
    };
    status.code()
}

/// All that the program does: does what the arguments after the program's name ask for, and answers the status that the process ends
/// with.
///
/// - `script`, or `script --engine E` where E is `sqlite` or `cells`: the input is a script, whose text goes to the output. The
///   engine of SQLite is the default.
/// - `exec NAME SQL ADDRESS..` and `query NAME SQL ADDRESS..`: the leader of a cluster, one of whose servers is at one of the
///   addresses, runs a statement on the database NAME, and what came of it is printed.
/// - `check`: what the files on the disk represent is printed, if their node is stopped.
/// - `gen NUMBER COUNT`: the script of a load of writes that these give is written; with `--run` it is run instead, with an engine of
///   cells at each node, and it is written how its nodes are at its end.
///
/// Other words give status 1 and the line `error words`. 4 is a fault of the output, an error line that could not be written included; 7
/// means out of memory; 15 means that a node failed because of a bug of the program.
///
/// A script: a line that isn't in the grammar, or that names what isn't there, the first fault of the script, gives status 2, after the
/// text of the lines before it, and `error line` with its number. A line after the millionth, an event after the twenty thousandth, or
/// one whose messages have too many bytes, as the first fault gives 9 and `error large` instead. 3 is a fault of the input. The journal is
/// that of this run afterwards: what the engines answered to the statements of clients, how each disk call was met at which a line aims,
/// and what was loaded after a stop or a failed call, in their order; what it held before is dropped, and after other words it is as it
/// was. What was read, and what came of the events at the nodes, decide all else. What came of them is what whole nodes do, so every
/// run is safe, at each moment and at a later one, with stops and failing calls of disks at any place. Unless the input is at its end,
/// every script that begins with the bytes read has the fault that is named; and after a fault of the outside, out of memory or a bug a front was
/// written of what each of them gives, so nothing of a line that was read in part.
///
/// A statement: 0 with the number of changed rows or the rows, 11 with the server's refusal, 12 where no leader was found in three
/// rounds of the addresses, and 13 where the statement was sent and nobody knows whether it was run; 12 and 13 print nothing. The
/// statement is sent again only where a server answered that it doesn't lead.
///
/// A check: 0 with the lines of what the files represent; 8 where they have a fault, with its line alone: `damaged S AT`, `gap A B`,
/// `no metadata`, or `bad snapshot I`; 5 is a fault of the disk. No file is changed.
///
/// A node that is served: it is started over the disk and makes a step for each event that the host brings. 10 comes after as many
/// events as the arguments say, 6 if the host failed, 5 if the disk did, 7 if memory ran out, 15 if a step failed because of a bug, and 8
/// if the files aren't those of a node.
///
/// After words that ask for no script the input is as it was; the same holds for the dialer where no statement is asked for, the disk where neither a
/// check nor a node is, and the host where no node is.
pub fn dqnode<S: Source, K: Sink, D: Disk, N: Dialer, H: Host<Read>, W: Notes>(
    alloc: Global,
    words: &[String],
    input: &mut S,
    output: &mut K,
    journal: &mut ClusterJournal,
    disk: &mut D,
    network: &mut Network<N, H, W>,
) -> u8
    // A script that was asked for was run.
    ensures script { ScriptRun (asks_for words.now) journal.new (S.left input.old) (S.left input.new) (K.written output.old) (K.written output.new) result }
    // Words that ask for nothing are refused.
    ensures arguments { RefusesArguments (asks_for words.now) (K.written output.old) (K.written output.new) result }
    // A statement that was asked for was run by the leader of a cluster.
    ensures statement { StatementRun (asks_for words.now) (N.net network.old.dialer) (N.net network.new.dialer)
        (K.written output.old) (K.written output.new) result }
    // A check: what the files represent was printed, or their fault.
    ensures check { CheckRun (asks_for words.now) (D.states disk.old) (D.states disk.new) K.written output.old output.new result }
    // The script of a number and a count of writes was made, or run.
    ensures generate { GenerateRun (asks_for words.now) journal.new (K.written output.old) (K.written output.new) result }
    // A node was served.
    ensures serve { ServeRun D.states (record {
      tells = D.tells;
      disk_faults = D.faults;
      done = H.done;
      taken = λ h. record { left = H.left h; count = H.taken h };
      host_faults = H.faults;
    }) (asks_for words.now) network.old.host network.new.host disk.old disk.new result }
    // What is not asked for is left alone.
    ensures untouched { Untouched (asks_for words.now) (S.left input.old) (S.left input.new) (S.faults input.old) (S.faults input.new) journal.old journal.new
        network.old.dialer network.new.dialer disk.old disk.new network.old.host network.new.host result }
    // Each status has its cause.
    ensures status { StatusTells (asks_for words.now)
        (record { input = S.faults input.old; output = K.faults output.old; disk = D.faults disk.old; host = H.faults network.old.host })
        (record { input = S.faults input.new; output = K.faults output.new; disk = D.faults disk.new; host = H.faults network.new.host }) result }
    // The run of every script is safe where what came of its events is what whole nodes do.
    ensures always_safe { RunsAreSafe }
    // With an engine of cells a script alone decides what comes of its events, what is written and how it ends: in two calls that ran one script
    // the same happened at nodes and was noted, except for the numbers of transactions, the same was written after what was there, and the
    // fault is the same, where in both no call of a disk stopped or failed, no engine wanted memory, and no checksum matched by chance in what a
    // start found.
    ensures determined { ScriptsDecide }
    // And one that broke off, by a fault of the outside, because memory ran out or because of a bug, wrote a front of what another one
    // wrote.
    ensures determined_front { BrokenScriptsDecide }
    // A run has one list of commands: at every moment machines that have applied as many of them hold the same files and
    // pending pages, and are shown so. The files of each are together at most 67,108,864 bytes long.
    ensures alike { (script : List ℕ) (outcomes : List Outcome) → KeepsAlike script outcomes }
{
    match read_words(alloc, words) {
        Ok(asked) => run(alloc, asked, input, output, journal, disk, network),
        Err(_) => give_up(alloc, journal).code(),
    }
}
