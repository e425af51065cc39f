//! What holds of the bytes of all messages and configurations.
ghost use Rattle.std.specs.Prelude.{◌≡◌, ◌≢◌, ℕ, ◌<◌, ◌≤◌, false, List, [], ◌++◌, length, take, Ok, Err};
ghost use Rattle.raft_spec.specs.Node.{Server};
ghost use Rattle.wire_words.specs.declared.message.Message.{Message};
ghost use Rattle.wire_words.specs.Items.{AreBytes};
ghost use Rattle.raft_messages.specs.declared.fault.PeerFault.TheVariants.{Kind, Range};
ghost use Rattle.raft_messages.specs.declared.message.RaftMessage.{RaftMessage};
ghost use Rattle.raft_messages.specs.Messages.{message_fields, body_bytes, message_schema, what_number, numbers_fit, AllHold, Reads, Writes};
ghost use Rattle.raft_messages.specs.Reading.{peer_message_of};
ghost use Rattle.raft_messages.specs.Servers.{servers_of, WritesServers};

/// A message of a peer is read exactly if the bytes are its encoding: what is read is encoded so, what is encoded so is read,
/// and what is written is encoded so.
pub fn messages_read_back()
    ensures spelled { (to : ℕ) (m : Message) (peer : RaftMessage) → AreBytes m.body → peer_message_of to m ≡ Ok peer → Reads m peer × (peer.to ≡ to) }
    ensures read { (m : Message) (peer : RaftMessage) → Reads m peer → peer_message_of peer.to m ≡ Ok peer }
    ensures written { (peer : RaftMessage) (bytes : List ℕ) → Writes peer bytes →
        Reads (record { kind = what_number peer.what; schema = message_schema peer; body = body_bytes peer }) peer }
{}

/// A message with a number out of range has no encoding, and what is written of it is refused as out of range.
pub fn out_of_range_is_refused()
    ensures unspelled { (peer : RaftMessage) (bytes : List ℕ) → numbers_fit peer ≡ false → ¬ (Writes peer bytes) }
    ensures refused { (peer : RaftMessage) → peer.to ≤ 127 → AllHold (message_fields peer) → numbers_fit peer ≡ false →
        peer_message_of peer.to (record { kind = what_number peer.what; schema = message_schema peer; body = body_bytes peer }) ≡ Err Range }
{}

/// What is written of a message is refused by every other node, and by each node whose id is above 127.
pub fn other_nodes_refuse()
    ensures others { (to : ℕ) (peer : RaftMessage) → 0 < to → to ≢ peer.to →
        peer_message_of to (record { kind = what_number peer.what; schema = message_schema peer; body = body_bytes peer }) ≡ Err Kind }
    ensures far { (to : ℕ) (m : Message) → 127 < to → peer_message_of to m ≡ Err Kind }
{}

/// No encoding of a message is a proper front of another's.
pub fn messages_stand_apart()
    ensures { (peer other : RaftMessage) (bytes other_bytes rest : List ℕ) → Writes peer bytes → Writes other other_bytes →
        bytes ++ rest ≡ other_bytes → rest ≡ [] }
{}

/// A configuration is read exactly if the bytes are its encoding: what is read is encoded so, and what is encoded so is read,
/// with the place after it, whatever follows.
pub fn configurations_read_back()
    ensures spelled { (bytes : List ℕ) (servers : List Server) (place : ℕ) → AreBytes bytes → servers_of bytes ≡ Ok (servers, place) →
        WritesServers servers (take place bytes) }
    ensures read { (bytes : List ℕ) (servers : List Server) (spelled rest : List ℕ) → WritesServers servers spelled → bytes ≡ spelled ++ rest →
        servers_of bytes ≡ Ok (servers, length spelled) }
{}
