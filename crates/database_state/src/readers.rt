//! Reading a state machine's databases under pins.

ghost use Rattle.std.specs.Prelude.{◌≡◌, ◌≢◌, IfOk, IfErr, OnErr};
ghost use Rattle.dq_base.specs.Images.{page_at};
ghost use Rattle.database_state.specs.Databases.{named};
ghost use Rattle.database_state.specs.Pins.{Pinning, IsPinned, IsPin, ShowsNewest, IsRefused, pinned_image, without_pin, StillPinned};

use crate::database::Database;
use crate::lookup::{find_named, pinned_place};
use crate::machine::Machine;
use crate::pin::{Pin, PinFault};
use dq_base::{Image, Page};
use std::alloc::AllocError;

/// Pins the database of a name.
fn pin_named(databases: &mut Vec<Database>, name: &str) -> Result<Pin, PinFault>
    ensures done { IfOk result (IsPin name.now databases.old.items databases.new.items) }
    ensures refused { IfErr result (IsRefused (named name.now databases.old.items)) }
    ensures kept { OnErr result (databases.new.items ≡ databases.old.items) }
{
    let Some(place) = find_named(databases.as_slice(), name) else {
        return Err(PinFault::Unknown);
    };
    let database = &mut databases[place];
    let mark = database.store.pin()?;
    Ok(Pin {
        place: database.place,
        mark,
    })
}

/// Releases a live pin.
fn release_pin(databases: &mut Vec<Database>, pin: Pin)
    requires { IsPinned databases.old.items pin }
    ensures { databases.new.items ≡ without_pin pin databases.old.items }
{
    let place = pinned_place(databases.as_slice(), &pin);
    let database = &mut databases[place];
    database.store.release(pin.mark);
}

impl Machine {
    /// Pins the newest image of the database of a name. `Unknown` exactly without one, and `Full(64)` exactly
    /// where 64 of its pins are live; the state machine is then unchanged. Looks at the names.
    pub fn pin(&mut self, name: &str) -> Result<Pin, PinFault>
        ensures done { IfOk result (IsPin name.now self.old self.new) }
        ensures shows { IfOk result (ShowsNewest name.now self.old self.new) }
        ensures refused { IfErr result (IsRefused (named name.now self.old)) }
        ensures kept { OnErr result (self.new ≡ self.old) }
        ensures shown { (other : Pinning) → StillPinned self.old self.new other }
    {
        pin_named(&mut self.databases, name)
    }

    /// Releases a pin that is live in this state machine; it is spent. Looks at the databases.
    pub fn release(&mut self, pin: Pin)
        requires { IsPinned self.old pin }
        ensures done { self.new ≡ without_pin pin self.old }
        ensures shown { (other : Pinning) → other ≢ pin → StillPinned self.old self.new other }
    {
        release_pin(&mut self.databases, pin);
    }

    /// The page of a number in the image that a live pin shows; `None` exactly if that image doesn't have the page. Page 1
    /// is the sizes page and always exists. Costs a look-up and the copy of one page, and looks at the databases.
    pub fn page(&self, pin: &Pin, number: u64) -> Option<Page>
        requires { IsPinned self.now pin.now }
        ensures { result ≡ page_at (pinned_image self.now pin.now) number }
    {
        let databases = self.databases.as_slice();
        let database = &databases[pinned_place(databases, pin)];
        database.store.page_under(&pin.mark, number)
    }

    /// The image that a live pin shows, copied.
    pub fn image(&self, pin: &Pin) -> Result<Image, AllocError>
        requires { IsPinned self.now pin.now }
        ensures { IfOk result (λ image. image ≡ pinned_image self.now pin.now) }
    {
        let databases = self.databases.as_slice();
        let database = &databases[pinned_place(databases, pin)];
        database.store.image_at(&pin.mark)
    }
}
