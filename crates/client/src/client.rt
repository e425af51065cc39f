ghost use Rattle.std.specs.Prelude.{◌≡◌, ◌<◌, ◌≤◌, length, [], OnErr};
ghost use Rattle.wire_words.specs.Items.{HasNoNul};
ghost use Rattle.client.specs.Course.{Takes, step, begun};

use crate::course::{Awaited, Course};
use crate::events::{ClientAction, ClientEvent};
use dq_base::Items;
use std::alloc::{AllocError, Global};
use std::marker::Model;
use wire_words::WireText;

/// A client that finds the leader of a cluster and has it run one statement. It decides and does nothing itself: it is told
/// what happens and says what to do.
///
/// A try dials an address of its list and asks there which server leads. An answer that names another address is followed
/// once. It opens the database and then sends the statement. A try ends, and the next address follows, if there is no
/// connection or it breaks before the statement was sent, if no leader is known, if something else than the awaited response
/// comes before the statement, and if a server answers 10250, by which it says that it doesn't lead. It goes three rounds.
#[derive(Drop)]
pub struct ClientCore {
    alloc: Global,
    course: Course,
}

impl Model for ClientCore {
    ghost use Rattle.client.specs.declared.course.Course.{Course as Standing};
    ghost use Rattle.client.specs.Course.{IsSound};

    ghost Value = { Standing };

    ghost use Rattle.client.specs.contracts.course.Course as parts;
    ghost use Rattle.std.specs.Coded.{codes};

    ghost coded = { Prim.hlevel (codes, parts.the_row.coded) };

    ghost view = { λ a. a.course };

    ghost invariant = { λ a. IsSound a.course };
}

impl ClientCore {
    /// A client that hasn't begun. There are 1 to 9 addresses; the database's name and the text of the statement hold no
    /// NUL; `query` says whether the statement answers rows.
    pub fn new(
        alloc: Global,
        addresses: Vec<WireText>,
        name: WireText,
        sql: WireText,
        query: bool,
    ) -> ClientCore
        requires some { 0 < length addresses.items }
        requires few { length addresses.items ≤ 9 }
        requires name { HasNoNul name }
        requires sql { HasNoNul sql }
        ensures { result ≡ begun addresses.items name sql query }
    {
        let course = Course {
            addresses: Items::new(addresses),
            name,
            sql,
            query,
            awaited: Awaited::Begin,
            tries: 0,
            parts: Items::new(Vec::new(alloc)),
            size: 0,
        };
        ClientCore { alloc, course }
    }

    /// Something happens; answers what is to be done. First only `Begin` is awaited, after a `Dial` only `Dialled` and
    /// `NotDialled`, after a `Send` or a `Wait` on a connection only `Got` and `Broken`, and after `Done` nothing; what isn't
    /// awaited is answered by `Wait` and changes nothing. `Err` means out of memory, and changes nothing either.
    #[tactic(auto, using(crate::proofs::Sound::stays_sound))]
    pub fn step(&mut self, event: &ClientEvent) -> Result<ClientAction, AllocError>
        ensures { Takes (step self.old event.now) self.old self.new result }
    {
        self.course.take(self.alloc, event)
    }
}
