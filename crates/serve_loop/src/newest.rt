//! Of which newest images an engine is informed in advance.

ghost use Rattle.std.specs.Prelude.{◌≡◌, true, IfSome};
ghost use Rattle.std.specs.Arc.{arc_value};
ghost use Rattle.sql_engine.specs.Meanings.{Stays};
ghost use Rattle.node_core.specs.Whole.{Agrees};
ghost use Rattle.serve_loop.specs.Telling.{IsNewest, is_settled};

use database_state::Machine;
use dq_base::{Image, ImageNumber};
use node_core::{Node, NodeState};
use sql_engine::Engine;
use std::alloc::Global;
use std::sync::Arc;

/// Of how many databases an engine is informed at most: as many as a node has. SQLite's engine keeps four images more open than these.
const MAX_TOLD_NAMES: usize = 16;

/// The most pages of an image of which an engine is informed: 4 MiB. The next event is taken only once it is open, which takes 25 to 75
/// microseconds a page where it isn't open yet, and a comparison, 0.2 to 0.4 microseconds a page, if a commit of the node's own led to it.
const MAX_PAGES: u64 = 1_024;

/// Of which newest images an engine was informed in a term, by the places of their databases.
#[derive(Clone, Copy)]
pub(crate) struct Telling {
    term: u64,
    told: [Option<ImageNumber>; MAX_TOLD_NAMES],
}

/// Whether a node leads, and has applied all of its log.
fn is_settled(state: NodeState) -> bool
    ensures { result ≡ is_settled state }
{
    state.role.leads() && state.applied == state.last
}

/// The number of the newest image of the database at a place, in the order of their names.
fn number_at(machine: &Machine, place: usize) -> Option<ImageNumber> {
    let database = machine.databases().get(place)?;
    machine.number(database.name().as_str())
}

impl Telling {
    /// It was told of none.
    pub(crate) fn new() -> Telling {
        Telling::in_term(0)
    }

    fn in_term(term: u64) -> Telling {
        Telling {
            term,
            told: [None; MAX_TOLD_NAMES],
        }
    }

    /// The place of the first database whose newest image the engine wasn't informed of, which counts as told from here on. Looks for each
    /// database once by its name.
    fn first_untold(&mut self, machine: &Machine) -> Option<usize> {
        for place in 0..MAX_TOLD_NAMES {
            let number = number_at(machine, place);
            if number.is_some() && self.told[place] != number {
                self.told[place] = number;
                return Some(place);
            }
        }
        None
    }

    /// The place of the database of which the engine of a node that is so is told next: `None` where the node doesn't lead or hasn't
    /// applied all of its log, and if the engine was informed in this term of each newest image.
    pub(crate) fn next(&mut self, state: NodeState, machine: &Machine) -> Option<usize>
        ensures { IfSome result (λ _. is_settled state ≡ true) }
    {
        if !is_settled(state) {
            return None;
        }
        if self.term != state.term {
            *self = Telling::in_term(state.term);
        }
        self.first_untold(machine)
    }
}

/// A database's newest image, and its number.
#[derive(Drop)]
struct NewestImage {
    number: ImageNumber,
    image: Arc<Image, Global>,
}

/// The newest image of the database of a name; `None` if there is none of the name, if it has more pages than an engine is informed of,
/// and if memory runs out. Copies it if the machine doesn't keep it whole.
fn newest_of(machine: &Machine, name: &str) -> Option<NewestImage>
    ensures { IfSome result (λ newest. IsNewest name.now machine.now newest.number (arc_value newest.image)) }
{
    if machine.pages(name)? > MAX_PAGES {
        return None;
    }
    let number = machine.number(name)?;
    match machine.newest_shared(name) {
        Ok(Some(image)) => Some(NewestImage { number, image }),
        _ => None,
    }
}

/// Informs an engine of the newest image of the database of a name, if it isn't large. If memory runs out it says nothing.
fn tell_one<E: Engine>(node: &Node, name: &str, engine: &mut E)
    requires { Agrees (E.known engine.old) node.now }
    ensures agrees { Agrees (E.known engine.new) node.now }
    ensures engine { Stays (E.kind engine.old) (E.kind engine.new) (E.refused_openings engine.old) (E.refused_openings engine.new) }
    ensures told { E.told engine.new ≡ E.told engine.old }
{
    if let Some(newest) = newest_of(node.machine(), name) {
        engine.ready(&newest.image, newest.number);
    }
}

/// Informs an engine of the newest image of the database at a place, in the order of their names. Beyond the last one it does nothing.
pub(crate) fn tell_at<E: Engine>(node: &Node, place: usize, engine: &mut E)
    requires { Agrees (E.known engine.old) node.now }
    ensures agrees { Agrees (E.known engine.new) node.now }
    ensures engine { Stays (E.kind engine.old) (E.kind engine.new) (E.refused_openings engine.old) (E.refused_openings engine.new) }
    ensures told { E.told engine.new ≡ E.told engine.old }
{
    if let Some(database) = node.machine().databases().get(place) {
        tell_one(node, database.name().as_str(), engine);
    }
}
