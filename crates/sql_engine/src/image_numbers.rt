use dq_base::ImageNumber;

/// The numbers that a run goes by.
#[derive(Clone, Copy, Debug, PartialEq, Eq)]
pub struct ImageNumbers {
    /// The number of the image that is handed in.
    pub before: ImageNumber,
    /// The number that the image after gets, as a working image, if there is one. No engine may know it yet.
    pub after: u64,
}
