ghost use Rattle.std.specs.Prelude.{◌≡◌, ◌<◌, ◌==◌, length, position, IfSome};
ghost use Rattle.std.specs.Option.{option_map};
ghost use Rattle.dq_base.specs.Texts.{halves};

/// The place of the first space.
fn space_in(text: &[u8]) -> Option<usize>
    ensures place { result ≡ position (λ b. b == 32) text.now }
    ensures within { IfSome result (λ at. at < length text.now) }
{
    text.iter().position(|b| *b == b' ')
}

/// What is before and after the first space of a text; `None` exactly if it has none.
#[tactic(auto, unfolding(crate::specs::Texts::halves))]
pub fn halves_of(text: &[u8]) -> Option<(&[u8], &[u8])>
    ensures { option_map (λ both. (both.0.now, both.1.now)) result ≡ halves text.now }
{
    let at = space_in(text)?;
    let (before, rest) = text.split_at(at);
    Some((before, &rest[1..]))
}
