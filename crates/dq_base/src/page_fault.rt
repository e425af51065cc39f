ghost use Rattle.std.specs.Prelude.{◌≡◌};
ghost use Rattle.dq_base.specs.declared.page_fault.PageFault.TheVariants.{NoMemory};

use std::alloc::AllocError;

/// Why a page set cannot be applied. The image is unchanged after each of them.
#[derive(Clone, Copy, Debug, PartialEq, Eq, thiserror::Error)]
pub enum PageFault {
    /// The last page is no sizes page: its number isn't 1, a byte past its first 16 isn't zero, or it states a length
    /// above 67,108,864 bytes. An empty set has no last page.
    #[error("the last page is no sizes page")]
    NoSizes,
    /// The first number before the last page that isn't above the one before it, or is 0 or 1.
    #[error("page {0} is out of order")]
    Order(u64),
    /// The first page that lies wholly past the stated length of its file.
    #[error("page {0} lies past the stated end of its file")]
    NotInLength(u64),
    /// Memory ran out.
    #[error("out of memory")]
    NoMemory,
}

impl From<AllocError> for PageFault {
    ghost from_gives = { λ _ fault. fault ≡ NoMemory };

    fn from(_error: AllocError) -> PageFault {
        PageFault::NoMemory
    }
}
