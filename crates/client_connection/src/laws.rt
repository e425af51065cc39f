ghost use Rattle.std.specs.Prelude.{◌≡◌, false, ℕ, List, [], ◌∷◌, ◌++◌, None};
ghost use Rattle.wire_words.specs.declared.message.Message.{Message};
ghost use Rattle.wire_words.specs.Stream.{fault_in};
ghost use Rattle.client_connection.specs.Connection.{Conn, HasTaken, PeerHasTaken, opened, received, peer_received, read_of};

/// In whatever pieces a stream comes: the messages that were taken, and then those that wait, are those of what is read of the
/// pieces, joined, and the same holds for the end. All of a piece is read, while there is room.
pub fn pieces_are_joined()
    ensures opened { HasTaken opened [] [] }
    ensures received { (c : Conn) (bytes piece : List ℕ) (taken : List Message) → HasTaken c bytes taken →
        HasTaken (received c piece) (bytes ++ read_of c piece) taken }
    ensures whole { (c : Conn) (piece : List ℕ) → (received c piece).full ≡ false → read_of c piece ≡ piece }
    ensures taken { (old new : Conn) (bytes : List ℕ) (taken : List Message) (m : Message) → HasTaken old bytes taken →
        old ≡ record { end = new.end; waiting = m ∷ new.waiting; full = new.full } → HasTaken new bytes (taken ++ m ∷ []) }
{}

/// In whatever pieces a peer's stream comes: the messages that were taken, before it was handed over and since, and then those
/// that wait, are those of the pieces, joined, as if a peer's limit of words had held from the start; and the same holds for the end. If a
/// client's stream was at a fault, it stays so.
pub fn peer_pieces_are_joined()
    ensures handed { (c : Conn) (bytes : List ℕ) (taken : List Message) → fault_in c.end ≡ None → HasTaken c bytes taken → PeerHasTaken c bytes taken }
    ensures received { (c : Conn) (bytes piece : List ℕ) (taken : List Message) → c.full ≡ false → PeerHasTaken c bytes taken →
        PeerHasTaken (peer_received c piece) (bytes ++ piece) taken }
    ensures taken { (old new : Conn) (bytes : List ℕ) (taken : List Message) (m : Message) → PeerHasTaken old bytes taken →
        old ≡ record { end = new.end; waiting = m ∷ new.waiting; full = new.full } → PeerHasTaken new bytes (taken ++ m ∷ []) }
{}
