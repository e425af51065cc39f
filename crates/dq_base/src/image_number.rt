/// The number of an image. Two images of one number are one image, while the state machine is one and the same.
#[derive(Clone, Copy, Debug, PartialEq, Eq)]
pub enum ImageNumber {
    /// A database's image after this many commits; `place` is its place in its state machine's order of opening.
    Newest { place: u64, commits: u64 },
    /// A working image: the number that it was given.
    Working(u64),
}
