//! What a line of a script says.

ghost use Rattle.std.specs.Prelude.{◌≡◌, nat_lt, IfOk};
ghost use Rattle.std.specs.Option.{option_map};
ghost use Rattle.std.specs.List.{list_all};
ghost use Rattle.script_grammar.specs.Grammar.{is_cluster, nodes_of, stop_of, fail_of, aimed_of, words_line, is_fit, is_blank, line_of};

use crate::events::{Event, event_in};
use crate::lines::MAX_LINE_LENGTH;
use crate::numbers::{number_within, one_or_two};
use dq_base::{decimal_u32, halves_of};
use std::alloc::{AllocError, Global};

/// What a line has happen to the disk of its event's node while the event happens.
#[derive(Clone, Copy, Debug)]
pub enum FaultTarget {
    /// Nothing.
    Nothing,
    /// The node stops at this disk call, counted from 1, and the disk takes the outcome of this pick.
    Stop { call: u32, pick: u32 },
    /// This disk call, counted from 1, fails.
    Fail { call: u32 },
}

impl FaultTarget {
    ghost use Rattle.script_grammar.specs.Modes.{is_aimed};

    /// Whether it is at a disk call.
    pub fn is_aimed(self) -> bool
        ensures { result ≡ is_aimed self }
    {
        match self {
            FaultTarget::Nothing => false,
            FaultTarget::Stop { .. } | FaultTarget::Fail { .. } => true,
        }
    }
}

/// What a script runs.
#[derive(Clone, Copy, Debug)]
pub enum Mode {
    /// A cluster of nodes.
    Nodes,
    /// State machines that apply one list of commands.
    Pages,
}

/// What one line of a script says.
#[derive(Debug, Drop)]
pub enum ScriptLine {
    /// Nothing: the line is empty or a comment.
    Blank,
    /// The mode line of a cluster of nodes: from 1 to 7 that vote, and further ones, at most 9 in all.
    Nodes { voters: u32, spare: u32 },
    /// The mode line of state machines that apply one list of commands, and how many there are, from 1 to 9.
    Pages { machines: u32 },
    /// A node or state machine is to be shown.
    Show { number: u32 },
    /// An event, and what happens to its node's disk.
    Event { event: Event, aim: FaultTarget },
}

impl ScriptLine {
    ghost use Rattle.script_grammar.specs.Modes.{may_follow};

    /// Whether the line may follow the mode line of a mode.
    pub fn may_follow(&self, mode: Mode) -> bool
        ensures { result ≡ may_follow mode self.now }
    {
        match self {
            ScriptLine::Blank | ScriptLine::Show { .. } => true,
            ScriptLine::Nodes { .. } | ScriptLine::Pages { .. } => false,
            ScriptLine::Event { event, .. } => match mode {
                Mode::Pages => event.is_for_machines(),
                Mode::Nodes => !event.is_for_machines(),
            },
        }
    }
}

/// Whether this many voters and further nodes may be in one cluster.
fn is_cluster(voters: u32, spare: u32) -> bool
    ensures { result ≡ is_cluster voters spare }
{
    voters >= 1 && voters <= 7 && u64::from(voters) + u64::from(spare) <= 9
}

/// `nodes V` and `nodes V S`, after the first word.
#[tactic(auto, unfolding(crate::specs::Grammar::nodes_of))]
fn nodes_in(text: &[u8]) -> Option<ScriptLine>
    ensures { result ≡ nodes_of text.now }
{
    let (voters, spare) = one_or_two(text)?;
    if !is_cluster(voters, spare) {
        return None;
    }
    Some(ScriptLine::Nodes { voters, spare })
}

/// What `stop K P` aims, and what follows it; its first word is left out.
#[tactic(auto, unfolding(crate::specs::Grammar::stop_of))]
fn stop_in(text: &[u8]) -> Option<(FaultTarget, &[u8])>
    ensures { option_map (λ both. (both.0, both.1.now)) result ≡ stop_of text.now }
{
    let (call, rest) = halves_of(text)?;
    let call = number_within(1, 4_294_967_295, call)?;
    let (pick, event) = halves_of(rest)?;
    let pick = decimal_u32(pick)?;
    Some((FaultTarget::Stop { call, pick }, event))
}

/// What `fail K` aims, and what follows it; its first word is left out.
#[tactic(auto, unfolding(crate::specs::Grammar::fail_of))]
fn fail_in(text: &[u8]) -> Option<(FaultTarget, &[u8])>
    ensures { option_map (λ both. (both.0, both.1.now)) result ≡ fail_of text.now }
{
    let (call, event) = halves_of(text)?;
    let call = number_within(1, 4_294_967_295, call)?;
    Some((FaultTarget::Fail { call }, event))
}

/// An aim, and the event after it.
#[tactic(auto, unfolding(crate::specs::Grammar::aimed_of))]
fn aimed_in(
    alloc: Global,
    front: Option<(FaultTarget, &[u8])>,
) -> Result<Option<ScriptLine>, AllocError>
    ensures { IfOk result (λ line. line ≡ aimed_of (option_map (λ both. (both.0, both.1.now)) front.entry)) }
{
    let Some((aim, text)) = front else {
        return Ok(None);
    };
    let Some(event) = event_in(alloc, text)? else {
        return Ok(None);
    };
    if !event.may_be_aimed() {
        return Ok(None);
    }
    Ok(Some(ScriptLine::Event { event, aim }))
}

/// A line of words.
#[tactic(auto, unfolding(crate::specs::Grammar::words_line))]
fn words_in(alloc: Global, line: &[u8]) -> Result<Option<ScriptLine>, AllocError>
    ensures { IfOk result (λ said. said ≡ words_line line.now) }
{
    if let Some(text) = line.strip_prefix(b"nodes ") {
        return Ok(nodes_in(text));
    }
    if let Some(text) = line.strip_prefix(b"pages ") {
        return Ok(number_within(1, 9, text).map(|machines| ScriptLine::Pages { machines }));
    }
    if let Some(text) = line.strip_prefix(b"show ") {
        return Ok(decimal_u32(text).map(|number| ScriptLine::Show { number }));
    }
    if let Some(text) = line.strip_prefix(b"stop ") {
        return aimed_in(alloc, stop_in(text));
    }
    if let Some(text) = line.strip_prefix(b"fail ") {
        return aimed_in(alloc, fail_in(text));
    }
    let event = event_in(alloc, line)?;
    Ok(event.map(|event| ScriptLine::Event {
        event,
        aim: FaultTarget::Nothing,
    }))
}

/// Whether all bytes are ASCII.
fn is_ascii(line: &[u8]) -> bool
    ensures { result ≡ list_all (λ b. nat_lt b 128) line.now }
{
    line.iter().all(|b| *b < 128)
}

/// Whether a line is ASCII, and no longer than a line may be.
fn fits(line: &[u8]) -> bool
    ensures { result ≡ is_fit line.now }
{
    line.len() <= MAX_LINE_LENGTH && is_ascii(line)
}

/// Whether a line is empty or a comment.
fn says_nothing(line: &[u8]) -> bool
    ensures { result ≡ is_blank line.now }
{
    match line {
        [] => true,
        [first, ..] => *first == b'#',
    }
}

/// What a line says, or `None` where it isn't in the grammar. What depends on the run, as whether a node, a connection or a
/// message is there, isn't looked at. It copies the bytes that a line encodes in hex, and nothing else.
#[tactic(auto, unfolding(crate::specs::Grammar::line_of))]
pub fn line_in(alloc: Global, line: &[u8]) -> Result<Option<ScriptLine>, AllocError>
    ensures { IfOk result (λ said. said ≡ line_of line.now) }
{
    if !fits(line) {
        return Ok(None);
    }
    if says_nothing(line) {
        return Ok(Some(ScriptLine::Blank));
    }
    words_in(alloc, line)
}
