//! Queries that readers answer concurrently with a node, and queries that wait for their answers.

ghost use Rattle.std.specs.Prelude.{◌≡◌, ◌<◌, ◌++◌, ◌∷◌, ℕ, List, [], Option, length, OnOk, IfErr, MatchOption};
ghost use Rattle.raft_safety.specs.Members.{Setup};
ghost use Rattle.node_core.specs.declared.event.Event.TheVariants as happens;
ghost use Rattle.node_core.specs.Account.{SoFar, Happens};
ghost use Rattle.node_core.specs.Conns.{KeepsConns};
ghost use Rattle.node_core.specs.Core.{core_of};
ghost use Rattle.node_core.specs.ExactParts.{Answered, ExactResume};
ghost use Rattle.node_core.specs.Taking.{TurnsInTerm};
ghost use Rattle.node_core.specs.Performing.{DeliversRead};
ghost use Rattle.sql_engine.specs.Meanings.{Stays};
ghost use Rattle.session_outcomes.specs.Reading.{read_named};
ghost use Rattle.client_sessions.specs.Seen.{Agrees};
ghost use Rattle.node_core.specs.declared.fault.NodeFault.TheVariants as fault;
ghost use Rattle.node_core.specs.Stepping.{StaysAgreed};
ghost use Rattle.node_core.specs.Whole.{IsGoing, IsLed};

use crate::fault::NodeFault;
use crate::running::Running;
use node_spec::{clients_turn, stretches_join};
use session_gateway::{Read, ReadJob};
use sql_engine::Engine;

/// How many queries may be at readers at one time. Each may hold an older version of a database.
const MAX_LENT: usize = 8;

/// The place of a connection among others.
fn place_of(conns: &[u64], conn: u64) -> Option<usize>
    ensures { MatchOption result (Unit {0}) (λ place. place < length conns.now) }
{
    for (place, other) in conns.iter().enumerate() {
        if *other == conn {
            return Some(place);
        }
    }
    None
}

/// Whether a reader gives its query back.
fn gives_back(read: &Read) -> bool {
    match read {
        Read::GivenBack => true,
        Read::Answers(..) | Read::Refused(..) => false,
    }
}

impl Running {
    /// A query goes to a reader.
    pub(crate) fn lend(&mut self, conn: u64, job: ReadJob) -> Result<(), NodeFault>
        requires going { IsGoing self.old }
        ensures conns { OnOk result (KeepsConns self.old self.new) }
        ensures going { OnOk result (IsGoing self.new) }
        ensures replica { self.new.replica ≡ self.old.replica }
        ensures index { self.new.applied.index ≡ self.old.applied.index }
        ensures wants { IfErr result (λ f. f ≡ fault.NoMemory) }
        ensures agrees { StaysAgreed self.old self.new }
        ensures said { OnOk result (self.new.outs.replies.items ≡ self.old.outs.replies.items) }
        ensures lends { OnOk result (self.new.outs.reads.items ≡ self.old.outs.reads.items ++ (conn, job) ∷ []) }
        ensures is { self.new ≡ record self.old {
          lent = self.new.lent;
          view = record self.old.view { readers = self.new.view.readers };
          outs = self.new.outs;
        } }
    {
        self.lent.push(conn)?;
        self.look_at_readers();
        self.outs.reads.push((conn, job))?;
        Ok(())
    }

    /// Readers take queries while fewer than eight are out.
    fn look_at_readers(&mut self)
        ensures { self.new ≡ record self.old { view = record self.old.view { readers = self.new.view.readers } } }
    {
        self.view.readers = self.has_readers && self.lent.len() < MAX_LENT;
    }

    /// A job of a connection is out no more. False where none was.
    fn take_back(&mut self, conn: u64) -> bool
        requires going { IsGoing self.old }
        ensures going { IsGoing self.new }
        ensures replica { self.new.replica ≡ self.old.replica }
        ensures index { self.new.applied.index ≡ self.old.applied.index }
        ensures agrees { StaysAgreed self.old self.new }
        ensures due { self.new.due.items ≡ self.old.due.items }
        ensures rest { self.new ≡ record self.old { lent = self.new.lent; view = record self.old.view { readers = self.new.view.readers } } }
    {
        let Some(place) = place_of(self.lent.as_slice(), conn) else {
            return false;
        };
        self.lent.remove(place);
        self.look_at_readers();
        true
    }

    /// The reader of a connection's query is done. A query that it gives back runs here.
    pub(crate) fn read_done<E: Engine>(
        &mut self,
        conn: u64,
        read: Read,
        engine: &mut E,
    ) -> Result<(), NodeFault>
        requires going { IsGoing self.old }
        requires led { IsLed self.old }
        requires idle { self.old.due.items ≡ [] }
        requires agrees { Agrees (E.known engine.old) self.old.clients self.old.applied.machine }
        ensures conns { OnOk result (KeepsConns self.old self.new) }
        ensures going { OnOk result (IsGoing self.new) }
        ensures led { OnOk result (IsLed self.new) }
        ensures replica { self.new.replica ≡ self.old.replica }
        ensures index { self.new.applied.index ≡ self.old.applied.index }
        ensures wants { IfErr result (λ f. f ≡ fault.NoMemory) }
        ensures agrees { OnOk result (Agrees (E.known engine.new) self.new.clients self.new.applied.machine) }
        ensures engine { Stays (E.kind engine.old) (E.kind engine.new) (E.refused_openings engine.old) (E.refused_openings engine.new) }
        ensures begun { (setup : Setup) →
            OnOk result (SoFar (E.meaning (E.kind engine.old)) (E.kind engine.old) setup self.old self.new (Happens (happens.ReadDone conn read))
            (E.told engine.old) (E.told engine.new)) }
    {
        if !self.take_back(conn) {
            return Ok(());
        }
        if gives_back(&read) {
            self.run_later(conn, engine)?;
            return Ok(());
        }
        self.tell_read(conn, read)?;
        Ok(())
    }

    /// The client of a query is told what its reader answers.
    fn tell_read(&mut self, conn: u64, read: Read) -> Result<(), NodeFault>
        requires going { IsGoing self.old }
        ensures conns { OnOk result (KeepsConns self.old self.new) }
        ensures going { OnOk result (IsGoing self.new) }
        ensures office { OnOk result (self.new.office ≡ self.old.office) }
        ensures replica { self.new.replica ≡ self.old.replica }
        ensures index { self.new.applied.index ≡ self.old.applied.index }
        ensures wants { IfErr result (λ f. f ≡ fault.NoMemory) }
        ensures agrees { StaysAgreed self.old self.new }
        ensures reads { OnOk result (DeliversRead self.old self.new conn (read_named read)) }
    {
        self.databases_stand();
        match self.clients.on_read_done(conn, read)? {
            Some(act) => {
                self.perform(act)?;
                Ok(())
            }
            None => Ok(()),
        }
    }

    /// Runs the query of a connection that waits for its answer, if there is one.
    #[tactic(auto, using(crate::proofs::Waiting::resumed_turns))]
    pub(crate) fn run_later<E: Engine>(
        &mut self,
        conn: u64,
        engine: &mut E,
    ) -> Result<(), NodeFault>
        requires going { IsGoing self.old }
        requires led { IsLed self.old }
        requires idle { self.old.due.items ≡ [] }
        requires agrees { Agrees (E.known engine.old) self.old.clients self.old.applied.machine }
        ensures conns { OnOk result (KeepsConns self.old self.new) }
        ensures going { OnOk result (IsGoing self.new) }
        ensures led { OnOk result (IsLed self.new) }
        ensures replica { self.new.replica ≡ self.old.replica }
        ensures index { self.new.applied.index ≡ self.old.applied.index }
        ensures wants { IfErr result (λ f. f ≡ fault.NoMemory) }
        ensures agrees { OnOk result (Agrees (E.known engine.new) self.new.clients self.new.applied.machine) }
        ensures engine { Stays (E.kind engine.old) (E.kind engine.new) (E.refused_openings engine.old) (E.refused_openings engine.new) }
        ensures goes { (setup : Setup) (bytes : List ℕ) (joins : Option ℕ) →
            OnOk result (TurnsInTerm (E.meaning (E.kind engine.old)) (E.kind engine.old) setup bytes joins self.old self.new
            (E.told engine.old) (E.told engine.new)) }
        ensures exact { OnOk result (Answered (E.told engine.old) (E.told engine.new)
            (ExactResume (E.meaning (E.kind engine.old)) (E.kind engine.old) conn (core_of self.old) (core_of self.new))) }
    {
        clients_turn::<E>();
        stretches_join::<E>();
        let machine = &mut self.applied.machine;
        let act = self.clients.on_later(conn, &self.view, machine, engine)?;
        self.databases_stand();
        match act {
            Some(act) => {
                self.perform(act)?;
                Ok(())
            }
            None => Ok(()),
        }
    }
}
