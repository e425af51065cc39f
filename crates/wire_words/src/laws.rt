ghost use Rattle.std.specs.Prelude.{◌≡◌, ◌<◌, ◌≤◌, ◌/◌, ◌^◌, ℕ, List, [], ◌++◌, length, Ok, IsUtf8};
ghost use Rattle.std.specs.List.{AllByRecursion};
ghost use Rattle.wire_words.specs.declared.value.Dialect.{Dialect};
ghost use Rattle.wire_words.specs.declared.value.Value.{Value};
ghost use Rattle.wire_words.specs.declared.value.ValueType.{ValueType};
ghost use Rattle.wire_words.specs.Items.{word, pair, text, raw, AreBytes, HasNoNul, IsWord, IsPair, IsText, IsRaw};
ghost use Rattle.wire_words.specs.Message.{message, IsBody};
ghost use Rattle.wire_words.specs.Reading.{Unread, Took, word_at, pair_at, text_at, raw_at, blob_at};
ghost use Rattle.wire_words.specs.ReadingValues.{value_at, values_at, params_at, params_wide_at, row_at};
ghost use Rattle.wire_words.specs.Values.{params, params_wide, row, AreWritable, IsInRange, IsBlob, IsValue, IsParams, IsParamsWide, IsParamsRead, IsParamsWideRead, IsRow};
ghost use Rattle.wire_words.specs.Stream.{after_messages, one_before, messages_in, version_word, stream, going_on};

/// A word is read exactly if the bytes are its encoding: what is read is encoded so, and what is encoded so is read.
pub fn words_read_back()
    ensures spelled { (old new : Unread) (n : ℕ) → AreBytes old.bytes → word_at old ≡ Ok (n, new) → Took (IsWord n) old new }
    ensures read { (old new : Unread) (n : ℕ) → Took (IsWord n) old new → word_at old ≡ Ok (n, new) }
{}

/// Two numbers in one word are read exactly if the bytes are their encoding.
pub fn pairs_read_back()
    ensures spelled { (old new : Unread) (first second : ℕ) → AreBytes old.bytes → pair_at old ≡ Ok ((first, second), new) →
        Took (IsPair first second) old new }
    ensures read { (old new : Unread) (first second : ℕ) → Took (IsPair first second) old new →
        pair_at old ≡ Ok ((first, second), new) }
{}

/// A text is read exactly if the bytes are its encoding.
pub fn texts_read_back()
    ensures spelled { (old new : Unread) (t : List ℕ) → text_at old ≡ Ok (t, new) → Took (IsText t) old new }
    ensures read { (old new : Unread) (t : List ℕ) → Took (IsText t) old new → text_at old ≡ Ok (t, new) }
{}

/// Bytes of a known number are read exactly if the bytes are their encoding.
pub fn raw_reads_back()
    ensures size { (size : ℕ) (old new : Unread) (bytes : List ℕ) → raw_at size old ≡ Ok (bytes, new) → length bytes ≡ size }
    ensures spelled { (size : ℕ) (old new : Unread) (bytes : List ℕ) → raw_at size old ≡ Ok (bytes, new) → Took (IsRaw bytes) old new }
    ensures read { (old new : Unread) (bytes : List ℕ) → Took (IsRaw bytes) old new → raw_at (length bytes) old ≡ Ok (bytes, new) }
{}

/// Each value has one encoding, which the writers write.
pub fn one_spelling()
    ensures word { (n : ℕ) → n < 2 ^ 64 → IsWord n (word n) }
    ensures only_word { (n : ℕ) (bytes : List ℕ) → IsWord n bytes → bytes ≡ word n }
    ensures pair { (first second : ℕ) → first < 2 ^ 32 → second < 2 ^ 32 → IsPair first second (pair first second) }
    ensures only_pair { (first second : ℕ) (bytes : List ℕ) → IsPair first second bytes → bytes ≡ pair first second }
    ensures text { (t : List ℕ) → IsUtf8 t → HasNoNul t → IsText t (text t) }
    ensures only_text { (t bytes : List ℕ) → IsText t bytes → bytes ≡ text t }
    ensures raw { (content : List ℕ) → IsRaw content (raw content) }
    ensures only_raw { (content bytes : List ℕ) → IsRaw content bytes → bytes ≡ raw content }
{}

/// Messages are prefix-free: if two are at the front of the same bytes, they are one and the same bytes follow. So no
/// message is a proper front of another.
pub fn messages_stand_apart()
    ensures same { (kind other schema other_schema : ℕ) (body other_body rest other_rest : List ℕ) → IsBody body → IsBody other_body →
        message kind schema body ++ rest ≡ message other other_schema other_body ++ other_rest →
        (kind ≡ other) × (schema ≡ other_schema) × (body ≡ other_body) × (rest ≡ other_rest) }
    ensures prefix { (kind other schema other_schema : ℕ) (body other_body rest : List ℕ) → IsBody body → IsBody other_body →
        message kind schema body ++ rest ≡ message other other_schema other_body → rest ≡ [] }
{}

/// A blob is read exactly if the bytes are its encoding.
pub fn blobs_read_back()
    ensures spelled { (old new : Unread) (bytes : List ℕ) → AreBytes old.bytes → blob_at Dialect.Exact old ≡ Ok (bytes, new) →
        Took (IsBlob Dialect.Exact bytes) old new }
    ensures read { (old new : Unread) (bytes : List ℕ) → Took (IsBlob Dialect.Exact bytes) old new →
        blob_at Dialect.Exact old ≡ Ok (bytes, new) }
{}

/// A value of a type is read exactly if the bytes encode it so.
pub fn values_read_back()
    ensures spelled { (dialect : Dialect) (t : ValueType) (old new : Unread) (v : Value) → AreBytes old.bytes →
        value_at dialect t old ≡ Ok (v, new) → Took (IsValue dialect t v) old new }
    ensures read { (dialect : Dialect) (t : ValueType) (v : Value) (old new : Unread) → Took (IsValue dialect t v) old new →
        value_at dialect t old ≡ Ok (v, new) }
{}

/// A tuple, with a count of either width, is read exactly if the bytes are ones that a client may write for it.
pub fn params_read_back()
    ensures spelled { (old new : Unread) (vs : List Value) → AreBytes old.bytes → params_at old ≡ Ok (vs, new) →
        Took (IsParamsRead vs) old new }
    ensures read { (old new : Unread) (vs : List Value) → Took (IsParamsRead vs) old new → params_at old ≡ Ok (vs, new) }
    ensures wide_spelled { (old new : Unread) (vs : List Value) → AreBytes old.bytes → params_wide_at old ≡ Ok (vs, new) →
        Took (IsParamsWideRead vs) old new }
    ensures wide_read { (old new : Unread) (vs : List Value) → Took (IsParamsWideRead vs) old new →
        params_wide_at old ≡ Ok (vs, new) }
{}

/// A row is read exactly if the bytes are its encoding.
pub fn rows_read_back()
    ensures count { (count : ℕ) (old new : Unread) (vs : List Value) → AreBytes old.bytes → row_at count old ≡ Ok (vs, new) →
        length vs ≡ count }
    ensures spelled { (count : ℕ) (old new : Unread) (vs : List Value) → AreBytes old.bytes → row_at count old ≡ Ok (vs, new) →
        Took (IsRow vs) old new }
    ensures read { (old new : Unread) (vs : List Value) → Took (IsRow vs) old new → row_at (length vs) old ≡ Ok (vs, new) }
{}

/// Each tuple and each row has one encoding, which the writers write, and a tuple so encoded is among those that are
/// read.
pub fn one_spelling_of_values()
    ensures params { (vs : List Value) → length vs < 2 ^ 8 → AllByRecursion IsInRange vs → IsParams vs (params vs) }
    ensures only_params { (vs : List Value) (bytes : List ℕ) → IsParams vs bytes → bytes ≡ params vs }
    ensures read_params { (vs : List Value) (bytes : List ℕ) → IsParams vs bytes → IsParamsRead vs bytes }
    ensures params_wide { (vs : List Value) → length vs < 2 ^ 32 → AllByRecursion IsInRange vs → IsParamsWide vs (params_wide vs) }
    ensures only_params_wide { (vs : List Value) (bytes : List ℕ) → IsParamsWide vs bytes → bytes ≡ params_wide vs }
    ensures read_params_wide { (vs : List Value) (bytes : List ℕ) → IsParamsWide vs bytes → IsParamsWideRead vs bytes }
    ensures row { (vs : List Value) → AllByRecursion IsInRange vs → IsRow vs (row vs) }
    ensures only_row { (vs : List Value) (bytes : List ℕ) → IsRow vs bytes → bytes ≡ row vs }
{}

/// What is read can be written: no text that is read holds a NUL, and a tuple has no more values than one that is written
/// may have. Only a wide tuple may have more, since its count has 32 bits.
pub fn what_is_read_can_be_written()
    ensures values { (dialect : Dialect) (types : List ValueType) (old new : Unread) (vs : List Value) → AreBytes old.bytes →
        values_at dialect types old ≡ Ok (vs, new) → AreWritable vs }
    ensures params { (old new : Unread) (vs : List Value) → AreBytes old.bytes → params_at old ≡ Ok (vs, new) →
        AreWritable vs × (length vs ≤ 255) }
    ensures params_wide { (old new : Unread) (vs : List Value) → AreBytes old.bytes → params_wide_at old ≡ Ok (vs, new) →
        AreWritable vs }
    ensures row { (count : ℕ) (old new : Unread) (vs : List Value) → AreBytes old.bytes → row_at count old ≡ Ok (vs, new) →
        AreWritable vs }
{}

/// A stream is its version word and then its messages, each of which is given if the bytes are its encoding; and the stream
/// of bytes in two pieces is that of the first with what the second adds to it.
pub fn streams_read_back()
    ensures begins { (limit : ℕ) (bytes : List ℕ) → stream limit (version_word ++ bytes) ≡ messages_in limit bytes }
    ensures read { (limit kind schema : ℕ) (body rest : List ℕ) → IsBody body → length body / 8 ≤ limit →
        messages_in limit (message kind schema body ++ rest) ≡
        one_before (record { kind = kind; schema = schema; body = body }) (messages_in limit rest) }
    ensures joined { (limit : ℕ) (bytes more : List ℕ) → stream limit (bytes ++ more) ≡
        after_messages (stream limit bytes).messages (going_on limit (stream limit bytes).end more) }
{}
