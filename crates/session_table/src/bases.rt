//! The database of a session, as the state machine has it.

ghost use Rattle.std.specs.Prelude.{◌≡◌, IsSome, IfOk};
ghost use Rattle.std.specs.Arc.{arc_value};
ghost use Rattle.session_spec.specs.Machine.{machine_of};
ghost use Rattle.session_table.specs.Table.{database_of};

use crate::session::Session;
use database_state::Machine;
use dq_base::{Image, Name};
use std::alloc::{AllocError, Global};
use std::sync::Arc;

/// The name of the database that was opened; the empty one if none was.
pub fn name_of(database: &Option<Name>) -> &str
    ensures { result.now ≡ database_of database.now }
{
    match database {
        Some(name) => name.as_str(),
        None => "",
    }
}

/// The name of the database that a session has opened.
pub fn opened_name(session: &Session) -> &Name
    requires { IsSome session.now.database }
    ensures { database_of session.now.database ≡ result.now }
{
    session.database.as_ref().unwrap()
}

/// How many commits the database of a name had; 0 where the state machine has none.
pub fn newest(machine: &Machine, name: &str) -> u64
    ensures { result ≡ ((machine_of machine.now).base name.now).newest }
{
    machine.newest(name).unwrap_or(0)
}

/// Takes a name that was read.
pub fn newest_of(machine: &Machine, name: &Name) -> u64
    ensures { result ≡ ((machine_of machine.now).base name.now).newest }
{
    newest(machine, name.as_str())
}

/// The newest image of the database of a name, copied; the empty one if the state machine has none.
pub fn newest_image(alloc: Global, machine: &Machine, name: &str) -> Result<Image, AllocError>
    ensures { IfOk result (λ image. image ≡ ((machine_of machine.now).base name.now).image) }
{
    match machine.newest_image(name)? {
        Some(image) => Ok(image),
        None => Ok(Image::new(alloc)),
    }
}

/// Takes a name that was read.
pub fn newest_image_of(alloc: Global, machine: &Machine, name: &Name) -> Result<Image, AllocError>
    ensures { IfOk result (λ image. image ≡ ((machine_of machine.now).base name.now).image) }
{
    newest_image(alloc, machine, name.as_str())
}

/// The newest image of the database of a name, shared; the empty one if the state machine has none. If the state machine keeps the image
/// whole this copies nothing, and else it copies the image.
pub fn newest_shared(
    alloc: Global,
    machine: &Machine,
    name: &str,
) -> Result<Arc<Image, Global>, AllocError>
    ensures { IfOk result (λ image. arc_value image ≡ ((machine_of machine.now).base name.now).image) }
{
    match machine.newest_shared(name)? {
        Some(image) => Ok(image),
        None => {
            let image = Arc::new(alloc, Image::new(alloc))?;
            Ok(image)
        }
    }
}
