//! A disk, and the node that runs over it with its engine, if one does.

ghost use Rattle.std.specs.Prelude.{◌≡◌, [], ℕ, List, true, false, is_some, None, IfOk, OnOk};
ghost use Rattle.sqlite_engine.specs.Any.{any_kind, any_known};
ghost use Rattle.script_cluster.specs.Outcomes.{Does as Happened, Crashes};
ghost use Rattle.script_cluster.specs.Knowing.{IsNew, LeadsOn, StartsOn};
ghost use Rattle.script_cluster.specs.World.{empty_place};
ghost use Rattle.script_cluster.specs.Places.{doing_of, Comes, IsStart, IsStep, line_of, outs_of, place_after_crash};
ghost use Rattle.script_safety.specs.Slots.{outs_of as core_outs};
ghost use Rattle.script_whole_nodes.specs.Seats.{HasFallen, IsSeated, Sits, place_of, standing_of};
ghost use Rattle.script_whole_nodes.specs.Turns.{FallsTo, IsFound, Knows};

use crate::happening::{Fell, StartEnd, start_node, step_node};
use disk_model::MemDisk;
use engine_recording::{Journal, RecordingEngine};
use file_digest::digest;
use node_core::{Node, StepOutputs as CoreOuts};
use script_cluster::{EventEnd, EventResult, NodeEvent, NodeLine, Outs, PlaceFault, VoterCount};
use script_grammar::FaultTarget;
use sql_engine::{CellEngine, EngineKind};
use sqlite_engine::{AnyEngine, SqliteEngine};
use std::alloc::{AllocError, Global};

/// A disk, the node that runs over it with its engine, if one does, and how a further one is made.
#[derive(Drop)]
pub(crate) struct NodeSlot {
    pub(crate) alloc: Global,
    pub(crate) kind: EngineKind,
    pub(crate) disk: MemDisk,
    pub(crate) node: Option<Node>,
    pub(crate) engine: RecordingEngine<AnyEngine>,
    /// Whether the disk stopped, or a call of it failed, since the last start that ended well.
    pub(crate) has_failed: bool,
}

/// An engine of a kind, which knows nothing, and keeps its answers.
pub(crate) fn new_engine(alloc: Global, kind: EngineKind) -> RecordingEngine<AnyEngine>
    ensures known { any_known result.engine ≡ [] }
    ensures kind { any_kind result.engine ≡ kind }
    ensures quiet { (result.noted ≡ []) × (result.cut ≡ false) }
{
    let engine = match kind {
        EngineKind::Sqlite => AnyEngine::Sqlite(SqliteEngine::new(alloc)),
        EngineKind::Cells => AnyEngine::Cells(CellEngine::new(alloc)),
    };
    RecordingEngine::new(alloc, engine)
}

/// A disk without files, and no node.
pub(crate) fn empty_seat(alloc: Global, kind: EngineKind) -> NodeSlot
    ensures place { place_of result ≡ empty_place }
    ensures new { IsNew (Knows kind) result }
    ensures kind { result.kind ≡ kind }
    ensures seated { IsSeated result }
{
    NodeSlot {
        alloc,
        kind,
        disk: MemDisk::new(alloc),
        node: None,
        engine: new_engine(alloc, kind),
        has_failed: false,
    }
}

/// How a node stands.
#[tactic(auto, using(crate::proofs::Seating::line_is))]
pub(crate) fn line_for(node: &Node) -> NodeLine
    ensures { result ≡ line_of (standing_of node.now) }
{
    let state = node.state();
    NodeLine {
        term: state.term,
        role: state.role,
        applied: state.applied,
        digest: digest(node.machine().databases()),
    }
}

/// What a step says, without the queries for readers, as a script has none.
fn outs_in(outs: CoreOuts) -> Outs
    ensures { outs_of result ≡ core_outs outs }
{
    let CoreOuts {
        replies,
        closed,
        messages,
        reads: _,
    } = outs;
    Outs {
        replies,
        closed,
        messages,
    }
}

/// The answers that an engine has kept. `Err` means out of memory, also of the engine's, which has lost an answer
/// then.
fn answers_of(alloc: Global, engine: &mut RecordingEngine<AnyEngine>) -> Result<Journal, AllocError>
    ensures engine { engine.new.engine ≡ engine.old.engine }
    ensures answers { IfOk result (λ answers. (answers ≡ engine.old.noted) × (engine.old.cut ≡ false)) }
    ensures quiet { OnOk result ((engine.new.noted ≡ []) × (engine.new.cut ≡ false)) }
{
    if engine.is_cut() {
        return Err(AllocError);
    }
    let mut answers = Journal::new(alloc);
    answers.take_from(engine)?;
    Ok(answers)
}

#[tactic(auto, using(crate::proofs::Seating::seated_again, crate::proofs::Seating::none_seated))]
/// What came of an event that ended so: the answers that the engine has kept belong to it. `Err` means out of memory, also of
/// the engine's; no node runs then.
fn came(seat: &mut NodeSlot, ended: EventEnd) -> Result<EventResult, PlaceFault>
    requires sits { Sits seat.old }
    requires kind { any_kind seat.old.engine.engine ≡ seat.old.kind }
    ensures ended { IfOk result (λ came. came.ended ≡ ended) }
    ensures answers { IfOk result (λ came. (came.answers ≡ seat.old.engine.noted) × (seat.old.engine.cut ≡ false)) }
    ensures node { OnOk result (seat.new.node ≡ seat.old.node) }
    ensures disk { seat.new.disk ≡ seat.old.disk }
    ensures failed { seat.new.has_failed ≡ seat.old.has_failed }
    ensures kind { seat.new.kind ≡ seat.old.kind }
    ensures seated { IsSeated seat.new }
{
    match answers_of(seat.alloc, &mut seat.engine) {
        Ok(answers) => Ok(EventResult { answers, ended }),
        Err(AllocError) => {
            seat.node = None;
            Err(PlaceFault::NoMemory)
        }
    }
}

/// A disk is found as the next start finds it: a stopped one has crashed, by the pick of its stop. Answers whether it was stopped.
#[tactic(auto, using(crate::proofs::Turning::found_crashed, crate::proofs::Turning::found_same))]
fn find(disk: &mut MemDisk) -> Result<bool, AllocError>
    ensures { IfOk result (λ stopped. IsFound stopped disk.old.contents disk.new.contents) }
{
    if disk.stopped() {
        // The stop has brought its own pick.
        disk.crash(0)?;
        return Ok(true);
    }
    disk.arm(None, None);
    Ok(false)
}

/// How an event ended by which a node fell, when this many things of it were kept whole: its disk stopped, and takes the outcome of the
/// stop's pick; or a call of it failed.
fn fall(seat: &mut NodeSlot, keeps: u64) -> Result<EventEnd, AllocError>
    requires { seat.old.node ≡ None }
    ensures fall { IfOk result (FallsTo keeps seat.old.disk.contents seat.new.disk.contents) }
    ensures fallen { HasFallen seat.new.node seat.new.has_failed }
    ensures engine { seat.new.engine ≡ seat.old.engine }
    ensures kind { seat.new.kind ≡ seat.old.kind }
{
    seat.has_failed = true;
    if find(&mut seat.disk)? {
        Ok(EventEnd::Stopped(keeps))
    } else {
        Ok(EventEnd::Failed(keeps))
    }
}

#[tactic(auto, using(crate::proofs::Seating::is_step, crate::proofs::Seating::is_step_fallen, crate::proofs::Seating::none_seated))]
/// An event happens at the node that runs, while a line aims at a call of its disk.
pub(crate) fn step(
    seat: &mut NodeSlot,
    event: NodeEvent,
    aim: FaultTarget,
) -> Result<EventResult, PlaceFault>
    requires seated { IsSeated seat.old }
    requires up { is_some seat.old.node ≡ true }
    ensures comes { IfOk result (λ came. Comes (place_of seat.old) (place_of seat.new) came
        (λ outcome. LeadsOn (Knows seat.old.kind) seat.old seat.new (λ node. Happened node (doing_of event) aim outcome))) }
    ensures step { IfOk result (λ came. IsStep came.ended) }
    ensures kind { seat.new.kind ≡ seat.old.kind }
    ensures seated { IsSeated seat.new }
{
    match step_node(seat, event, aim) {
        Ok(outs) => came(seat, EventEnd::Stepped(outs_in(outs))),
        Err(Fell::DiskFault(keeps)) => {
            let ended = fall(seat, keeps)?;
            came(seat, ended)
        }
        Err(Fell::NoMemory) => Err(PlaceFault::NoMemory),
        Err(Fell::Internal) => Err(PlaceFault::Internal),
    }
}

#[tactic(auto, using(crate::proofs::Seating::is_start_well, crate::proofs::Seating::is_start_fallen, crate::proofs::Seating::is_start_unread, crate::proofs::Seating::none_seated))]
/// A node starts over the disk, with an engine that knows nothing, if none runs.
pub(crate) fn start(
    seat: &mut NodeSlot,
    node: u64,
    voters: VoterCount,
    aim: FaultTarget,
) -> Result<EventResult, PlaceFault>
    requires seated { IsSeated seat.old }
    requires down { seat.old.node ≡ None }
    ensures comes { IfOk result (λ came. Comes (place_of seat.old) (place_of seat.new) came
        (StartsOn (Knows seat.old.kind) seat.old seat.new node voters aim)) }
    ensures start { IfOk result (λ came. IsStart came.ended) }
    ensures kind { seat.new.kind ≡ seat.old.kind }
    ensures seated { IsSeated seat.new }
{
    match start_node(seat, node, voters, aim)? {
        StartEnd::Runs(loaded) => came(seat, EventEnd::Started(loaded)),
        StartEnd::DiskFault => {
            let ended = fall(seat, 0)?;
            came(seat, ended)
        }
        StartEnd::Unreadable => came(seat, EventEnd::Unreadable),
    }
}

#[tactic(auto, using(crate::proofs::Turning::crash_leads, crate::proofs::Seating::none_sits))]
/// The node goes that runs, and the disk takes the outcome of a pick.
pub(crate) fn crash(seat: &mut NodeSlot, pick: u32) -> Result<(), AllocError>
    requires seated { IsSeated seat.old }
    requires up { is_some seat.old.node ≡ true }
    ensures place { OnOk result (place_of seat.new ≡ place_after_crash (place_of seat.old)) }
    ensures leads { OnOk result (LeadsOn (Knows seat.old.kind) seat.old seat.new (λ node. Crashes node pick)) }
    ensures kind { seat.new.kind ≡ seat.old.kind }
    ensures seated { IsSeated seat.new }
{
    seat.node = None;
    seat.disk.crash(u64::from(pick))
}
