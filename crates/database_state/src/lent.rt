//! A state machine's databases, lent to be read.

ghost use Rattle.std.specs.Prelude.{◌≡◌, length};
ghost use Rattle.dq_base.specs.Images.{page_at};
ghost use Rattle.page_store.specs.Store.{newest_image};
ghost use Rattle.database_state.specs.Machines.{IsMachine};

use crate::database::Database;
use crate::machine::Machine;
use dq_base::{Lengths, Name, Page};

impl Machine {
    /// The databases, lent by the bytes of their names; what is true of those of every state machine.
    pub fn databases(&self) -> &[Database]
        ensures all { result.now ≡ self.now }
        ensures stand { IsMachine self.now }
    {
        self.databases.as_slice()
    }
}

impl Database {
    /// Its name.
    pub fn name(&self) -> &Name
        ensures { result.now ≡ self.now.name }
    {
        &self.name
    }

    /// The lengths of the files of its newest image.
    pub fn lengths(&self) -> Lengths
        ensures main { result.main ≡ length (newest_image self.now.store).main }
        ensures side { result.side ≡ length (newest_image self.now.store).side }
    {
        self.store.lengths()
    }

    /// The page of a number in its newest image, with zeros past the end of its file; `None` exactly if that image has
    /// no such page. Costs a look-up and the copy of one page.
    pub fn newest_page(&self, number: u64) -> Option<Page>
        ensures { result ≡ page_at (newest_image self.now.store) number }
    {
        self.store.newest_page(number)
    }
}
