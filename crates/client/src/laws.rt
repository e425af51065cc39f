//! The laws of clients.

ghost use Rattle.std.specs.Prelude.{◌≡◌, ◌<◌, ℕ, Bool, List, true, false, length};
ghost use Rattle.client.specs.declared.events.ClientEvent.{ClientEvent};
ghost use Rattle.client.specs.declared.events.ClientAction.TheVariants.{Wait};
ghost use Rattle.client.specs.declared.course.Course.{Course};
ghost use Rattle.client.specs.Course.{begun, step};
ghost use Rattle.client.specs.Awaiting.{AllHeed, ToBegin, awaits_of, is_awaited};
ghost use Rattle.client.specs.Sending.{statement_bytes};
ghost use Rattle.client.specs.Laws.{AllObey, AreElsewhere, Free, turns, is_statement};

/// Whatever happens to a client, it does at each event what it may. A statement is sent only when the database is open on
/// that connection; each but the last was answered 10250; an end after it is what the answer to it says; and each other end, and
/// each address that is dialled, comes if the rules say.
pub fn clients_obey()
    ensures rules { (addresses : List (List ℕ)) (name sql : List ℕ) (query : Bool) (events : List ClientEvent) → 0 < length addresses →
        AllObey (record { addresses = addresses; sql = sql; query = query }) 0 (Free false) (turns (begun addresses name sql query) events) }
    ensures elsewhere { (addresses : List (List ℕ)) (name sql : List ℕ) (query : Bool) (events : List ClientEvent) → 0 < length addresses →
        AreElsewhere (turns (begun addresses name sql query) events) }
    ensures statements { (query : Bool) (db : ℕ) (sql : List ℕ) → is_statement (statement_bytes query db sql) ≡ true }
{}

/// First a client awaits only that it begins, after a dial only what comes of it, after it sent something only what comes on
/// its connection, and after its end nothing. What isn't awaited changes nothing, and the client waits; else it waits only at a part
/// of rows after which another follows.
pub fn clients_await()
    ensures heeds { (addresses : List (List ℕ)) (name sql : List ℕ) (query : Bool) (events : List ClientEvent) →
        AllHeed ToBegin (turns (begun addresses name sql query) events) }
    ensures unheeded { (course : Course) (event : ClientEvent) → is_awaited (awaits_of course.awaited) event ≡ false →
        step course event ≡ (Wait, course) }
{}
