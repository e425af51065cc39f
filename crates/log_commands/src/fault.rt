ghost use Rattle.std.specs.Prelude.{◌≡◌};
ghost use Rattle.log_commands.specs.Reading.{of_word};

use thiserror::Error;
use wire_words::WordFault;

/// Why bytes are no command.
#[derive(Clone, Copy, Debug, PartialEq, Eq, Error)]
pub enum CommandFault {
    /// The first byte isn't 1.
    #[error("the command has another format")]
    Format,
    /// The second byte represents no type of command.
    #[error("no command has this type")]
    Kind,
    /// An item could not be read.
    #[error("the command is malformed: {0}")]
    Word(WordFault),
    /// The page size isn't 4,096.
    #[error("the pages have another size")]
    PageSize,
    /// The number of pages, a page's number, the commit flag or the page count is not as it has to be, or the last page
    /// of a commit is no sizes page.
    #[error("a number of the command is out of its range")]
    Number,
    /// Bytes follow the command.
    #[error("bytes follow the command")]
    Tail,
    /// There is not enough memory.
    #[error("out of memory")]
    NoMemory,
}

impl From<WordFault> for CommandFault {
    ghost from_gives = { λ word fault. fault ≡ of_word word };

    fn from(word: WordFault) -> CommandFault {
        match word {
            WordFault::NoMemory => CommandFault::NoMemory,
            word => CommandFault::Word(word),
        }
    }
}
