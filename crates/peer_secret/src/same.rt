//! Whether two texts are the same, in a time that doesn't say where they differ.

ghost use Rattle.std.specs.Prelude.{◌≡◌, ◌≤◌, ◌==◌, cond, length};
ghost use Rattle.peer_secret.specs.Same.{differing, same_bytes};

/// 1 if two bytes differ, else 0.
#[tactic(auto, using(crate::proofs::Differing::difference_is, crate::proofs::Differing::difference_bound))]
fn difference(left: u8, right: u8) -> u64
    ensures difference { result ≡ cond (left == right) 0 1 }
    ensures bound { result ≤ 1 }
{
    u64::from(left != right)
}

/// At how many places two texts of one length differ. Each place is looked at, and no branch depends on it.
#[tactic(auto, using(crate::proofs::Differing::none_differs, crate::proofs::Differing::one_more, crate::proofs::Differing::all_looked_at))]
fn differing(left: &[u8], right: &[u8]) -> u64
    requires { length left.now ≡ length right.now }
    ensures { result ≡ differing left.now right.now }
{
    let mut count = 0;
    for at in 0..left.len() {
        count += difference(left[at], right[at]);
    }
    count
}

/// Whether these are the same bytes. The time depends on the lengths alone, so who sends texts to be compared doesn't learn how far they
/// are right.
pub fn is_same(left: &[u8], right: &[u8]) -> bool
    ensures { result ≡ same_bytes left.now right.now }
{
    left.len() == right.len() && differing(left, right) == 0
}
