//! Where a client stands, and what happens to it from there.

ghost use Rattle.std.specs.Prelude.{◌≡◌, ◌<◌, ◌≤◌, ◌+◌, ◌++◌, [], ◌∷◌, length, get_or, OnOk, OnErr};
ghost use Rattle.wire_rows.specs.Reading.{part_of};
ghost use Rattle.client.specs.Course.{Takes, IsSound, own_address, next_address, is_own, sends, ends, dials, follows, try_ends, refuses, on_begin, on_link, on_leader_link, on_server, on_db, on_answer, server_is, db_refuses, answer_refuses, rows_come, part_is, part_comes, on_asked, on_opened, on_stated, states_in, step};

use crate::events::{ClientAction, ClientEnd, ClientEvent};
use crate::requests::{copied, leader, opens, opens_at_once, states};
use dq_base::Items;
use std::alloc::{AllocError, Global};
use std::mem;
use wire_msgs::Response;
use wire_rows::{More, Part, RowReadFault, read_part};
use wire_words::{WireBytes, WireText};

/// How many rounds of its addresses a client goes.
const ROUNDS: u64 = 3;

/// How many bytes the bodies of the rows of an answer may have together.
const MAX_ANSWER_BYTES: u64 = 16_777_216;

/// By this code a server says that it doesn't lead.
const NOT_LEADER: u64 = 10250;

/// By this code a server says that it doesn't know what became of a statement.
const LEADERSHIP_LOST: u64 = 10506;

/// What a client awaits.
#[derive(Clone, Copy, Debug, PartialEq, Eq)]
pub(crate) enum Awaited {
    /// That it begins.
    Begin,
    /// That the address of its try is dialled.
    Link,
    /// That the address of the leader is dialled, which a server named.
    LeaderLink,
    /// Which server leads.
    Server,
    /// That the database is open.
    Db,
    /// The answer to the statement.
    Answer,
    /// Nothing: it has ended.
    Nothing,
}

/// A client: what it wants, and where it stands.
#[derive(Drop)]
pub(crate) struct Course {
    pub(crate) addresses: Items<WireText>,
    pub(crate) name: WireText,
    pub(crate) sql: WireText,
    /// Whether the statement answers rows.
    pub(crate) query: bool,
    pub(crate) awaited: Awaited,
    /// How many tries have ended.
    pub(crate) tries: u64,
    /// What was read of the answer.
    pub(crate) parts: Items<Part>,
    /// How many bytes the bodies of these parts have.
    pub(crate) size: u64,
}

/// The text at a place.
fn text_at(texts: &[WireText], at: usize) -> &WireText
    requires { at < length texts.now }
    ensures { result.now ≡ get_or texts.now at [] }
{
    &texts[at]
}

/// Puts a part after others. `Err` means out of memory, and leaves them as they
/// were.
fn append(alloc: Global, parts: &mut Items<Part>, part: Part) -> Result<(), AllocError>
    ensures ok { OnOk result (parts.new ≡ parts.old ++ part ∷ []) }
    ensures err { OnErr result (parts.new ≡ parts.old) }
{
    let mut all = mem::replace(parts, Items::new(Vec::new(alloc))).into_vec();
    let is_full = all.push(part).is_err();
    *parts = Items::new(all);
    if is_full {
        return Err(AllocError);
    }
    Ok(())
}

impl Course {
    /// The address of the try.
    fn own_address(&self) -> &WireText
        requires { IsSound self.now }
        ensures { result.now ≡ own_address self.now }
    {
        let count = self.addresses.len() as u64;
        text_at(self.addresses.as_slice(), (self.tries % count) as usize)
    }

    /// The address of the try after this one.
    fn next_address(&self) -> &WireText
        requires { IsSound self.now }
        ensures { result.now ≡ next_address self.now }
    {
        let count = self.addresses.len() as u64;
        text_at(
            self.addresses.as_slice(),
            ((self.tries + 1) % count) as usize,
        )
    }

    /// Whether this is the address of the try.
    fn is_own(&self, address: &WireText) -> bool
        requires { IsSound self.now }
        ensures { result ≡ is_own self.now address.now }
    {
        address.as_str() == self.own_address().as_str()
    }

    /// It ends.
    fn end(&mut self, alloc: Global, end: ClientEnd) -> ClientAction
        ensures { (result, self.new) ≡ ends end self.old }
    {
        self.awaited = Awaited::Nothing;
        self.parts = Items::new(Vec::new(alloc));
        self.size = 0;
        ClientAction::Done(end)
    }

    /// It reaches the end that a server refused.
    fn refuse(
        &mut self,
        alloc: Global,
        code: u64,
        text: &WireText,
    ) -> Result<ClientAction, AllocError>
        ensures { Takes (refuses self.old code text.now) self.old self.new result }
    {
        let text = copied(alloc, text)?;
        Ok(self.end(alloc, ClientEnd::Refused { code, text }))
    }

    /// It dials the first address.
    fn dial(&mut self, alloc: Global) -> Result<ClientAction, AllocError>
        requires { IsSound self.old }
        ensures { Takes (dials self.old) self.old self.new result }
    {
        let address = copied(alloc, self.own_address())?;
        self.awaited = Awaited::Link;
        Ok(ClientAction::Dial(address))
    }

    /// It dials the address of the leader.
    fn follow(&mut self, alloc: Global, address: &WireText) -> Result<ClientAction, AllocError>
        ensures { Takes (follows self.old address.now) self.old self.new result }
    {
        let address = copied(alloc, address)?;
        self.awaited = Awaited::LeaderLink;
        Ok(ClientAction::Dial(address))
    }

    /// The try has ended: the next address is dialled, or no leader was found.
    #[tactic(auto, unfolding(crate::specs::Course::try_ends))]
    fn end_try(&mut self, alloc: Global) -> Result<ClientAction, AllocError>
        requires { IsSound self.old }
        ensures { Takes (try_ends self.old) self.old self.new result }
    {
        let tries = self.tries + 1;
        if tries == ROUNDS * self.addresses.len() as u64 {
            return Ok(self.end(alloc, ClientEnd::NoLeader(tries)));
        }
        let address = copied(alloc, self.next_address())?;
        self.awaited = Awaited::Link;
        self.tries = tries;
        self.parts = Items::new(Vec::new(alloc));
        self.size = 0;
        Ok(ClientAction::Dial(address))
    }

    /// It sends something, and awaits what comes.
    fn send(&mut self, bytes: WireBytes, awaited: Awaited) -> ClientAction
        ensures { (result, self.new) ≡ sends bytes awaited self.old }
    {
        self.awaited = awaited;
        ClientAction::Send(bytes)
    }

    fn on_begin(&mut self, alloc: Global, event: &ClientEvent) -> Result<ClientAction, AllocError>
        requires { IsSound self.old }
        ensures { Takes (on_begin self.old event.now) self.old self.new result }
    {
        match event {
            ClientEvent::Begin => self.dial(alloc),
            _ => Ok(ClientAction::Wait),
        }
    }

    fn on_link(&mut self, alloc: Global, event: &ClientEvent) -> Result<ClientAction, AllocError>
        requires { IsSound self.old }
        ensures { Takes (on_link self.old event.now) self.old self.new result }
    {
        match event {
            ClientEvent::Dialled => {
                let bytes = leader(alloc)?;
                Ok(self.send(bytes, Awaited::Server))
            }
            ClientEvent::NotDialled => self.end_try(alloc),
            _ => Ok(ClientAction::Wait),
        }
    }

    fn on_leader_link(
        &mut self,
        alloc: Global,
        event: &ClientEvent,
    ) -> Result<ClientAction, AllocError>
        requires { IsSound self.old }
        ensures { Takes (on_leader_link self.old event.now) self.old self.new result }
    {
        match event {
            ClientEvent::Dialled => {
                let bytes = opens_at_once(alloc, &self.name)?;
                Ok(self.send(bytes, Awaited::Db))
            }
            ClientEvent::NotDialled => self.end_try(alloc),
            _ => Ok(ClientAction::Wait),
        }
    }

    /// A server says which server leads.
    #[tactic(auto, unfolding(crate::specs::Course::server_is))]
    fn server_is(
        &mut self,
        alloc: Global,
        id: u64,
        address: &WireText,
    ) -> Result<ClientAction, AllocError>
        requires { IsSound self.old }
        ensures { Takes (server_is self.old id address.now) self.old self.new result }
    {
        if id == 0 {
            return self.end_try(alloc);
        }
        if self.is_own(address) {
            let bytes = opens(alloc, &self.name)?;
            return Ok(self.send(bytes, Awaited::Db));
        }
        self.follow(alloc, address)
    }

    fn on_server(&mut self, alloc: Global, response: &Response) -> Result<ClientAction, AllocError>
        requires { IsSound self.old }
        ensures { Takes (on_server self.old response.now) self.old self.new result }
    {
        match response {
            Response::Server { id, address } => self.server_is(alloc, *id, address),
            Response::Failure { code, message } => self.refuse(alloc, *code, message),
            _ => self.end_try(alloc),
        }
    }

    /// OPEN was refused.
    #[tactic(auto, unfolding(crate::specs::Course::db_refuses))]
    fn db_refused(
        &mut self,
        alloc: Global,
        code: u64,
        text: &WireText,
    ) -> Result<ClientAction, AllocError>
        requires { IsSound self.old }
        ensures { Takes (db_refuses self.old code text.now) self.old self.new result }
    {
        if code == NOT_LEADER {
            return self.end_try(alloc);
        }
        self.refuse(alloc, code, text)
    }

    /// The database is open: the statement is sent.
    fn state(&mut self, alloc: Global, db: u32) -> Result<ClientAction, AllocError>
        requires { IsSound self.old }
        ensures { Takes (states_in self.old db) self.old self.new result }
    {
        let bytes = states(alloc, self.query, db, &self.sql)?;
        Ok(self.send(bytes, Awaited::Answer))
    }

    fn on_db(&mut self, alloc: Global, response: &Response) -> Result<ClientAction, AllocError>
        requires { IsSound self.old }
        ensures { Takes (on_db self.old response.now) self.old self.new result }
    {
        match response {
            Response::Db { id } => self.state(alloc, *id),
            Response::Failure { code, message } => self.db_refused(alloc, *code, message),
            _ => self.end_try(alloc),
        }
    }

    /// The statement was refused.
    #[tactic(auto, unfolding(crate::specs::Course::answer_refuses))]
    fn answer_refused(
        &mut self,
        alloc: Global,
        code: u64,
        text: &WireText,
    ) -> Result<ClientAction, AllocError>
        requires { IsSound self.old }
        ensures { Takes (answer_refuses self.old code text.now) self.old self.new result }
    {
        if code == NOT_LEADER {
            return self.end_try(alloc);
        }
        if code == LEADERSHIP_LOST {
            return Ok(self.end(alloc, ClientEnd::Unknown));
        }
        self.refuse(alloc, code, text)
    }

    /// A part of the rows came, whose body has this many bytes.
    fn part_is(
        &mut self,
        alloc: Global,
        size: u64,
        part: Part,
        more: More,
    ) -> Result<ClientAction, AllocError>
        requires { self.old.size + size ≤ 16777216 }
        ensures { Takes (part_is self.old size part more) self.old self.new result }
    {
        append(alloc, &mut self.parts, part)?;
        match more {
            More::Follows => {
                self.size += size;
                Ok(ClientAction::Wait)
            }
            More::Last => {
                let parts = mem::replace(&mut self.parts, Items::new(Vec::new(alloc)));
                Ok(self.end(alloc, ClientEnd::Rows(parts)))
            }
        }
    }

    /// The body of a part of the rows came, which has room.
    fn read_rows(&mut self, alloc: Global, body: &[u8]) -> Result<ClientAction, AllocError>
        requires { self.old.size + length body.now ≤ 16777216 }
        ensures { Takes (part_comes self.old (length body.now) (part_of body.now)) self.old self.new result }
    {
        match read_part(alloc, body) {
            Ok((part, more)) => self.part_is(alloc, body.len() as u64, part, more),
            Err(RowReadFault::NoMemory) => Err(AllocError),
            Err(_) => Ok(self.end(alloc, ClientEnd::Unknown)),
        }
    }

    /// The body of a part of the rows came.
    #[tactic(auto, unfolding(crate::specs::Course::rows_come))]
    fn rows_come(&mut self, alloc: Global, body: &WireBytes) -> Result<ClientAction, AllocError>
        requires { IsSound self.old }
        ensures { Takes (rows_come self.old body.now) self.old self.new result }
    {
        let bytes = body.as_slice();
        if MAX_ANSWER_BYTES < self.size + bytes.len() as u64 {
            return Ok(self.end(alloc, ClientEnd::Unknown));
        }
        self.read_rows(alloc, bytes)
    }

    fn on_answer(&mut self, alloc: Global, response: &Response) -> Result<ClientAction, AllocError>
        requires { IsSound self.old }
        ensures { Takes (on_answer self.old.query self.old response.now) self.old self.new result }
    {
        match response {
            Response::Failure { code, message } => self.answer_refused(alloc, *code, message),
            Response::Result { rows_affected, .. } if !self.query => {
                Ok(self.end(alloc, ClientEnd::Result(*rows_affected)))
            }
            Response::Rows { body } if self.query => self.rows_come(alloc, body),
            _ => Ok(self.end(alloc, ClientEnd::Unknown)),
        }
    }

    fn on_asked(&mut self, alloc: Global, event: &ClientEvent) -> Result<ClientAction, AllocError>
        requires { IsSound self.old }
        ensures { Takes (on_asked self.old event.now) self.old self.new result }
    {
        match event {
            ClientEvent::Got(response) => self.on_server(alloc, response),
            ClientEvent::Broken => self.end_try(alloc),
            _ => Ok(ClientAction::Wait),
        }
    }

    fn on_opened(&mut self, alloc: Global, event: &ClientEvent) -> Result<ClientAction, AllocError>
        requires { IsSound self.old }
        ensures { Takes (on_opened self.old event.now) self.old self.new result }
    {
        match event {
            ClientEvent::Got(response) => self.on_db(alloc, response),
            ClientEvent::Broken => self.end_try(alloc),
            _ => Ok(ClientAction::Wait),
        }
    }

    fn on_stated(&mut self, alloc: Global, event: &ClientEvent) -> Result<ClientAction, AllocError>
        requires { IsSound self.old }
        ensures { Takes (on_stated self.old event.now) self.old self.new result }
    {
        match event {
            ClientEvent::Got(response) => self.on_answer(alloc, response),
            ClientEvent::Broken => Ok(self.end(alloc, ClientEnd::Unknown)),
            _ => Ok(ClientAction::Wait),
        }
    }

    /// Something happens.
    #[tactic(auto, unfolding(crate::specs::Course::step))]
    pub(crate) fn take(
        &mut self,
        alloc: Global,
        event: &ClientEvent,
    ) -> Result<ClientAction, AllocError>
        requires { IsSound self.old }
        ensures { Takes (step self.old event.now) self.old self.new result }
    {
        match self.awaited {
            Awaited::Begin => self.on_begin(alloc, event),
            Awaited::Link => self.on_link(alloc, event),
            Awaited::LeaderLink => self.on_leader_link(alloc, event),
            Awaited::Server => self.on_asked(alloc, event),
            Awaited::Db => self.on_opened(alloc, event),
            Awaited::Answer => self.on_stated(alloc, event),
            Awaited::Nothing => Ok(ClientAction::Wait),
        }
    }
}
