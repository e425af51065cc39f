ghost use Rattle.std.specs.Prelude.{◌≡◌, ◌≤◌, ◌<◌, ◌-◌, ◌/◌, ◌%◌, ◌^◌, ◌++◌, ℕ, List, length, take, Ok};
ghost use Rattle.wal_frames.specs.declared.checksums.WordOrder.{WordOrder};
ghost use Rattle.wal_frames.specs.declared.frame.Frame.{Frame};
ghost use Rattle.wal_frames.specs.declared.header.WalHeader.{WalHeader};
ghost use Rattle.wal_frames.specs.Checksum.{checksum};
ghost use Rattle.wal_frames.specs.Text.{AreBytes, IsHeader, header, log, wal, wal_length, written_header};
ghost use Rattle.wal_frames.specs.Headers.{header_of};
ghost use Rattle.wal_frames.specs.Valid.{AreFrames, AreValid};

/// A checksum continues: that of two pieces one after the other is that of the second, from the one of the first on.
pub fn checksums_chain()
    ensures { (order : WordOrder) (start : ℕ × ℕ) (front back : List ℕ) → length front % 8 ≡ 0 →
        checksum order start (front ++ back) ≡ checksum order (checksum order start front) back }
{}

/// A header is read exactly if the bytes are its encoding.
pub fn headers_read_back()
    ensures spelled { (bytes : List ℕ) (h : WalHeader) → AreBytes bytes → header_of bytes ≡ Ok h →
        IsHeader h × ((rest : List ℕ) × (bytes ≡ header h ++ rest)) }
    ensures read { (h : WalHeader) (rest : List ℕ) → IsHeader h → header_of (header h ++ rest) ≡ Ok h }
{}

/// What is written is read, also if it is truncated: of a text that has its header, the whole frames are valid and no
/// others.
pub fn logs_read_back()
    ensures length { (h : WalHeader) (fs : List Frame) → AreFrames fs → length (log h fs) ≡ wal_length (length fs) }
    ensures whole { (h : WalHeader) (fs : List Frame) → AreFrames fs → AreValid (log h fs) h fs }
    ensures cut { (h : WalHeader) (fs : List Frame) (n : ℕ) → AreFrames fs → 32 ≤ n →
        AreValid (take n (log h fs)) h (take ((n - 32) / 4120) fs) }
{}

/// The valid frames of a text are one list.
pub fn one_list_is_valid()
    ensures { (bytes : List ℕ) (h : WalHeader) (fs gs : List Frame) → AreValid bytes h fs → AreValid bytes h gs → fs ≡ gs }
{}

/// A text whose valid frames end where it ends is the log of these frames. So where its header is the one that is
/// written here, it is what is written of them.
pub fn whole_logs_are_written_so()
    ensures { (bytes : List ℕ) (h : WalHeader) (fs : List Frame) → AreValid bytes h fs → length (log h fs) ≡ length bytes →
        bytes ≡ log h fs }
{}
