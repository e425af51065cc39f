use store_format::LastSegment;

/// What follows the whole batches of the last segment.
#[derive(Clone, Copy, Debug, PartialEq, Eq)]
pub enum Tail {
    /// Nothing: it reads to its end, or there is no segment.
    Whole,
    /// A batch whose write never ended. A start truncates the segment after as many bytes as read. If none do, the first word wasn't written
    /// whole, and a start removes the segment.
    Torn(LastSegment),
    /// Damage: no batch reads where the whole ones end, but one does at this later byte, or at the same one in another format than the first
    /// word says.
    Damaged(LastSegment, u64),
    /// The segment of the first number has more than one word, and its first word, the second number, is no known format.
    Unknown(u64, u64),
}
