ghost use Rattle.std.specs.Prelude.{◌≡◌, ◌==◌, Some, SomeIff, IfOk, string_bytes, refl};
ghost use Rattle.std.specs.Str.{bytes_eq};
ghost use Rattle.std.specs.Ordering.{nat_cmp};
ghost use Rattle.std.specs.Cmp.{partial_equiv_from_equiv};
ghost use Rattle.std.specs.Cmp.Lexicographic.{slice_cmp, nat_list_eq_equiv, nat_list_cmp_total, texts_po, texts_ties};
ghost use Rattle.dq_base.specs.Names.{has_nul, IsName};

use std::alloc::{AllocError, Global};
use std::cmp::Ordering;
use std::marker::Model;

/// How many bytes a name may have.
pub const MAX_NAME_LENGTH: usize = 255;

/// The name of a database: a text of 1 to 255 bytes without a NUL. Contracts see it as its bytes, and names compare by
/// them.
#[derive(Debug, Drop)]
pub struct Name {
    text: String,
}

impl Model for Name {
    ghost use Rattle.std.specs.Prelude.{List, ℕ, string_bytes};
    ghost use Rattle.dq_base.specs.Names.{IsName};

    ghost Value = { List ℕ };

    ghost view = { λ a. string_bytes a.text };

    ghost invariant = { λ a. IsName (string_bytes a.text) };
}

impl Name {
    /// The text as a name; `None` exactly if it is empty, longer than 255 bytes, or holds a NUL.
    pub fn new(text: String) -> Option<Name>
        ensures { SomeIff result (IsName (string_bytes text)) (string_bytes text) }
    {
        if text.is_empty() || text.len() > MAX_NAME_LENGTH || holds_nul(text.as_bytes()) {
            return None;
        }
        Some(Name { text })
    }

    /// A copy of the name.
    pub fn try_clone(&self, alloc: Global) -> Result<Name, AllocError>
        ensures { IfOk result (λ copy. copy ≡ self.now) }
    {
        Ok(Name {
            text: String::from_str(alloc, self.text.as_str())?,
        })
    }

    /// The text, borrowed.
    pub fn as_str(&self) -> &str
        ensures value { result.now ≡ self.now }
        ensures name { IsName self.now }
    {
        self.text.as_str()
    }
}

fn holds_nul(bytes: &[u8]) -> bool
    ensures { result ≡ has_nul bytes.now }
{
    bytes.contains(&0)
}

impl PartialEq for Name {
    ghost eq = { λ x y. bytes_eq x y };

    ghost laws = { partial_equiv_from_equiv nat_list_eq_equiv };

    fn eq(&self, other: &Name) -> bool {
        self.text == other.text
    }
}

impl Eq for Name {
    ghost laws = { nat_list_eq_equiv };
}

impl PartialOrd for Name {
    ghost partial_cmp = { λ x y. Some (slice_cmp nat_cmp x y) };

    ghost laws = { texts_po };

    fn partial_cmp(&self, other: &Name) -> Option<Ordering> {
        Some(self.cmp(other))
    }
}

impl Ord for Name {
    ghost cmp = { λ x y. slice_cmp nat_cmp x y };

    ghost total = { nat_list_cmp_total };

    ghost matches_partial_cmp = { λ x y. refl };

    ghost matches_eq = { texts_ties };

    fn cmp(&self, other: &Name) -> Ordering {
        self.text.cmp(&other.text)
    }
}
