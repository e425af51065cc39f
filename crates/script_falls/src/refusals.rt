//! Wrong scripts, and that the laws refuse them.

ghost use Rattle.script_falls.specs.Wrong.{
  NoFailureOverlooked,
  NoOtherImages,
  NoStopOverlooked,
  NoUnreadableOverlooked,
};

use crate::unfallen_scripts_are_safe;

/// Refuses to overlook a call of a disk that stops or fails, or a start that finds files that do not load.
pub fn refuses_an_overlooked_fall()
    ensures stops { NoStopOverlooked }
    ensures fails { NoFailureOverlooked }
    ensures unreadable { NoUnreadableOverlooked }
{}

/// Refuses two nodes at one index with other images, in a script without a fall.
pub fn refuses_other_images()
    ensures { (kind : _) → NoOtherImages kind }
{
    unfallen_scripts_are_safe();
}
