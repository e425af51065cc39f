//! What a node makes of a script.

ghost use Rattle.std.specs.Prelude.{◌≡◌, ◌≤◌, ℕ, List, ◌++◌};
ghost use Rattle.wire_words.specs.Stream.{stream, messages_in, client_limit};
ghost use Rattle.wire_msgs.specs.Requests.{request_bytes};
ghost use Rattle.script_generator.specs.Asking.{Asks};
ghost use Rattle.script_generator.specs.Generated.{open_request, opening_bytes, cell_of, value_of, set_request, set_bytes};

/// What the client of a script sends is the word of the version and then one whole message after the other, in each of which a node
/// reads the request: the first opens the database, and each further one sets a cell of 1 to 64 to a value of 0 to 999.
pub fn scripts_are_read()
    ensures begins { (rest : List ℕ) →
        stream client_limit (opening_bytes ++ rest) ≡ messages_in client_limit (request_bytes open_request ++ rest) }
    ensures opens { Asks open_request (request_bytes open_request) }
    ensures writes { (number : ℕ) → Asks (set_request number) (set_bytes number) }
    ensures least_cell { (number : ℕ) → 1 ≤ cell_of number }
    ensures greatest_cell { (number : ℕ) → cell_of number ≤ 64 }
    ensures values { (number : ℕ) → value_of number ≤ 999 }
{}
