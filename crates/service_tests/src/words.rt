//! The words of nodes.

ghost use Rattle.std.specs.Prelude.{IfSome};
ghost use Rattle.arguments.specs.Serving.{IsServable};

use arguments::{Serve, read_serve};
use std::alloc::Global;

/// The node that these words name.
pub(crate) fn named(alloc: Global, words: &[&str]) -> Option<Serve>
    ensures { IfSome result IsServable }
{
    let mut texts = Vec::new(alloc);
    for word in words {
        texts.push(String::from_str(alloc, word).ok()?).ok()?;
    }
    read_serve(alloc, texts.as_slice()).ok()?
}
