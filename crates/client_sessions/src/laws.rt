ghost use Rattle.std.specs.Prelude.{◌≡◌, ℕ, List, Some};
ghost use Rattle.client_connection.specs.Connection.{Conn};
ghost use Rattle.sql_engine.specs.Known.{Known};
ghost use Rattle.log_commands.specs.declared.command.Command.{Command};
ghost use Rattle.database_state.specs.declared.database.Database.{Database};
ghost use Rattle.database_state.specs.Databases.{act};
ghost use Rattle.database_state.specs.Machines.{IsMachine};
ghost use Rattle.database_state.specs.Pins.{Pinning, StillPinned};
ghost use Rattle.session_spec.specs.Events as events;
ghost use Rattle.client_sessions.specs.declared.clients.Clients.{Clients as Held};
ghost use Rattle.client_sessions.specs.Calls.{landed_at, lost_all};
ghost use Rattle.client_sessions.specs.Clients.{Clients, no_clients, joined, without, hung_up, closed};
ghost use Rattle.client_sessions.specs.Clients.{heard, Offer, next_offer, IsOffered, freed, HasNoTransactions, Sound};
ghost use Rattle.client_sessions.specs.Seen.{clients_of, Agrees, HasNoMarks, AreValidOver};

/// A law: the message whose turn it is is the first that waits on a connection that is open and whose session has no proposal
/// pending. So the requests of a connection come in the order of its stream, one at a time.
pub fn offers_are_first()
    ensures { (k : Clients) (offer : Offer) → next_offer k ≡ Some offer → IsOffered k offer }
{}

/// A law: whoever comes and goes, whatever is applied and whenever leadership is lost, a connection is open exactly if its
/// session is there and hasn't hung up, and the reply that a pending proposal gets can be sent.
pub fn clients_stay_sound()
    ensures started { Sound no_clients }
    ensures joined { (k : Clients) (conn : ℕ) → Sound k → Sound (joined k conn) }
    ensures left { (k : Clients) (conn : ℕ) (stream : Conn) → k.streams conn ≡ Some stream → Sound k → Sound (without k conn) }
    ensures applied { (k : Clients) (index : ℕ) (conns : List ℕ) → Sound k → Sound (freed k (events.on_applied index k.sessions) conns) }
    ensures lost { (k : Clients) (conns : List ℕ) → Sound k → Sound (freed k (events.on_lost k.sessions) conns) }
{}

/// A law: a command that the state machine does leaves the clients as they are, and standing over it. What it asks of the state machine is
/// the clause `shown` of `Machine::act`. And it leaves no number standing for two images.
pub fn commands_keep_clients()
    ensures clients { (held : Held) (databases : List Database) (command : Command) → ((pin : Pinning) → StillPinned databases (act databases command) pin) →
        AreValidOver held databases → clients_of held (act databases command) ≡ clients_of held databases }
    ensures stand { (held : Held) (databases : List Database) (command : Command) → ((pin : Pinning) → StillPinned databases (act databases command) pin) →
        AreValidOver held databases → AreValidOver held (act databases command) }
    ensures agree { (known : List Known) (held : Held) (databases : List Database) (command : Command) →
        IsMachine databases → IsMachine (act databases command) → Agrees known held databases → Agrees known held (act databases command) }
{}

/// A law: clients that stand over databases of which no image is pinned stand over any others of which none is, and are the same
/// there. So a node whose transactions have ended may take over the databases of a snapshot; `Clients::have_ended` has the rest.
pub fn clients_change_databases()
    ensures clients { (held : Held) (old new : List Database) → HasNoMarks old → AreValidOver held old → clients_of held new ≡ clients_of held old }
    ensures stand { (held : Held) (old new : List Database) → HasNoMarks old → HasNoMarks new → AreValidOver held old → AreValidOver held new }
{}

/// A law: if no transaction is open, none begins by clients that come and go, by bytes, nor by entries that are applied; and
/// after lost leadership none is open. The calls that handle requests say the same for a node that doesn't serve. So between a lost
/// leadership and the next service none begins.
pub fn no_transaction_begins()
    ensures started { HasNoTransactions no_clients }
    ensures joined { (k : Clients) (conn : ℕ) → HasNoTransactions k → HasNoTransactions (joined k conn) }
    ensures heard { (k : Clients) (conn : ℕ) (bytes : List ℕ) → HasNoTransactions k → HasNoTransactions (heard k conn bytes) }
    ensures left { (k : Clients) (conn : ℕ) → HasNoTransactions k → HasNoTransactions (hung_up k conn) }
    ensures closed { (k : Clients) (conn : ℕ) → HasNoTransactions k → HasNoTransactions (closed k conn) }
    ensures applied { (k : Clients) (index : ℕ) → HasNoTransactions k → HasNoTransactions (landed_at index k) }
    ensures lost { (k : Clients) → HasNoTransactions (lost_all k) }
{}
