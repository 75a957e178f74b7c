// The words that the language knows.
ghost use Rattle.std.specs.Prelude.{◌≡◌};
ghost use Rattle.script_lang.specs.Keywords.{keyword_of, serializer_named, is_in};

use execution_definitions::By;

/// The word that a command begins with.
#[derive(Clone, Copy, Debug, PartialEq, Eq)]
pub(crate) enum Keyword {
    Object,
    Fixed,
    Isolate,
    Join,
    Do,
    Mix,
    Write,
    Show,
    Total,
}

#[tactic(auto, unfolding(crate::specs::Keywords::keyword_of))]
pub(crate) fn keyword_of(word: &[u8]) -> Option<Keyword>
    ensures { result ≡ keyword_of word.now }
{
    match word {
        b"object" => Some(Keyword::Object),
        b"fixed" => Some(Keyword::Fixed),
        b"isolate" => Some(Keyword::Isolate),
        b"join" => Some(Keyword::Join),
        b"do" => Some(Keyword::Do),
        b"mix" => Some(Keyword::Mix),
        b"write" => Some(Keyword::Write),
        b"show" => Some(Keyword::Show),
        b"total" => Some(Keyword::Total),
        _ => None,
    }
}

#[tactic(auto, unfolding(crate::specs::Keywords::serializer_named))]
pub(crate) fn serializer_named(word: &[u8]) -> Option<By>
    ensures { result ≡ serializer_named word.now }
{
    match word {
        b"object" => Some(By::Object),
        b"sequence" => Some(By::Sequence),
        b"own" => Some(By::Own),
        _ => None,
    }
}

#[tactic(auto, unfolding(crate::specs::Keywords::is_in))]
pub(crate) fn is_in(word: &[u8]) -> bool
    ensures { result ≡ is_in word.now }
{
    matches!(word, b"in")
}
