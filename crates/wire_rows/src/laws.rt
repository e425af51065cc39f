ghost use Rattle.std.specs.Prelude.{◌≡◌, ◌≢◌, ℕ, List, [], map, slice_index, Ok};
ghost use Rattle.wire_words.specs.declared.value.Value.{Value};
ghost use Rattle.wire_words.specs.Values.{row};
ghost use Rattle.wire_rows.specs.declared.part.More.{More};
ghost use Rattle.wire_rows.specs.Spelling.{body_bytes};
ghost use Rattle.wire_rows.specs.Cut.{Rows, cut, bodies, joined, AreGreedy};
ghost use Rattle.wire_rows.specs.Reading.{part_of, read_as, IsSendable};

/// The rows of all parts together are the rows of the answer. Each part but the last would have no room for one row more,
/// and each has room in its body or one row at most.
pub fn parts_take_all_rows()
    ensures all { (columns : List (List ℕ)) (rows : Rows) → joined (cut columns rows) ≡ rows }
    ensures greedy { (columns : List (List ℕ)) (rows : Rows) → AreGreedy columns (cut columns rows) }
{}

/// What is written is read back: the body of a part as that part, and the bodies of an answer's parts as these parts, of
/// which the last alone says that none follows.
pub fn parts_read_back()
    ensures part { (columns : List (List ℕ)) (rows : Rows) (more : More) → IsSendable columns rows →
        part_of (body_bytes columns rows more) ≡ Ok (record { columns = columns; rows = rows }, more) }
    ensures answer { (columns : List (List ℕ)) (rows : Rows) → IsSendable columns rows →
        map part_of (bodies columns (cut columns rows)) ≡ read_as columns (cut columns rows) }
{}

/// No row begins as an end word does: its first byte is neither FF nor EE, if it has a value.
pub fn end_words_begin_no_row()
    ensures last { (values : List Value) → values ≢ [] → slice_index (row values) 0 ≢ 255 }
    ensures follows { (values : List Value) → values ≢ [] → slice_index (row values) 0 ≢ 238 }
{}
