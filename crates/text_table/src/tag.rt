// A short number that tells most texts apart.
ghost use Rattle.std.specs.Prelude.{◌≡◌};
ghost use Rattle.text_table.specs.Tags.{tag_of};

use std::hash::{FoldHasher, Hasher};

/// The tag of a text. Texts with equal tags may differ.
#[tactic(auto, unfolding(crate::specs::Tags::tag_of))]
pub(crate) fn tag_of_text(text: &str) -> u32
    ensures { result ≡ tag_of text.now }
{
    let mut hasher = FoldHasher::default();
    hasher.write(text.as_bytes());
    (hasher.finish() >> 32) as u32
}
