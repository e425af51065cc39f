ghost use Rattle.std.specs.Prelude.{◌≡◌, ◌≢◌};
ghost use Rattle.std.specs.IoError.{error_kind};

use std::io;
use std::io::ErrorKind;

/// How many times in a row an interrupted call of a reader or a writer is tried again.
pub(crate) const MAX_RETRIES: u32 = 1_000;

/// Why one call of a reader or a writer failed.
#[derive(Clone, Copy)]
pub(crate) enum Trouble {
    /// A signal came before anything was done: the call may be tried again.
    Interrupted,
    /// Anything else.
    Lasting,
}

impl Trouble {
    /// The trouble that an error of std reports.
    pub(crate) fn of(error: &io::Error) -> Trouble
        ensures interrupted { error_kind error.now ≡ ErrorKind.Interrupted
            → result ≡ Trouble.Interrupted }
        ensures lasting { error_kind error.now ≢ ErrorKind.Interrupted
            → result ≡ Trouble.Lasting }
    {
        if error.kind() == ErrorKind::Interrupted {
            Trouble::Interrupted
        } else {
            Trouble::Lasting
        }
    }
}
