//! The words that the program was started with.

ghost use Rattle.std.specs.Prelude.{◌≡◌, drop};

use std::alloc::{AllocError, Global};
use std::env;
use std::io::ErrorKind;
use std::rt::Env;

/// All words that the process was given, of which the first is the program's name. Where one of them isn't text there
/// are none, since the program knows no such word.
pub fn given<R: Env + AllocGlobal>(rt: &R) -> Result<Vec<String>, AllocError> {
    let alloc = rt.alloc();
    match env::args(rt) {
        Ok(all) => all.collect(alloc),
        Err(error) if error.kind() == ErrorKind::OutOfMemory => Err(AllocError),
        Err(_) => Ok(Vec::new(alloc)),
    }
}

/// All but the first of the words: those behind the program's name.
pub fn behind_name(all: &[String]) -> &[String]
    ensures { result.now ≡ drop 1 all.now }
{
    match all {
        [_program, words @ ..] => words,
        [] => &[],
    }
}
