// The names, the numbers and the act of a command.
ghost use Rattle.std.specs.Prelude.{◌≡◌};
ghost use Rattle.std.specs.Option.{option_copied};
ghost use Rattle.script_lang.specs.Parsing.Parts.{object_of, may_name, number, set_behind};
ghost use Rattle.script_lang.specs.Parsing.Parts.{act_of, deed_of};

use crate::fault::ScriptKind;
use crate::names::Names;
use crate::tokens::{is_name, number_value, set_value};
use crate::word32::{Act, Deed};
use ss_base::ObjectId;

// The object of a name that was made.
#[tactic(auto, unfolding(crate::specs::Parsing::Parts::object_of))]
pub(crate) fn object_of(names: &Names, name: &[u8]) -> Result<ObjectId, ScriptKind>
    ensures { result ≡ object_of names.now name.now }
{
    match names.number_of(name) {
        Some(number) => Ok(ObjectId(number)),
        None => Err(ScriptKind::NameUnknown),
    }
}

// Whether an object may have this name, and why not.
#[tactic(auto, unfolding(crate::specs::Parsing::Parts::may_name))]
pub(crate) fn may_name(names: &Names, name: &[u8]) -> Result<(), ScriptKind>
    ensures { result ≡ may_name names.now name.now }
{
    if !is_name(name) {
        return Err(ScriptKind::BadName);
    }
    if names.number_of(name).is_some() {
        return Err(ScriptKind::NameTaken);
    }
    Ok(())
}

#[tactic(auto, unfolding(crate::specs::Parsing::Parts::number))]
pub(crate) fn number(word: &[u8]) -> Result<u32, ScriptKind>
    ensures { result ≡ number word.now }
{
    number_value(word).ok_or(ScriptKind::BadNumber)
}

// The set behind `in`. Without it the set is 0.
#[tactic(auto, unfolding(crate::specs::Parsing::Parts::set_behind))]
fn set_behind(word: Option<&[u8]>) -> Result<u64, ScriptKind>
    ensures { result ≡ set_behind (option_copied word.entry) }
{
    match word {
        Some(word) => set_value(word).ok_or(ScriptKind::BadNumber),
        None => Ok(0),
    }
}

// The act of a word, and of a number behind it or none. `None` where no act is spelt so.
#[tactic(auto, unfolding(crate::specs::Parsing::Parts::act_of))]
pub(crate) fn act_of(word: &[u8], text: Option<&[u8]>) -> Option<Result<Act, ScriptKind>>
    ensures { result ≡ act_of word.now (option_copied text.entry) }
{
    match (word, text) {
        (b"give", None) => Some(Ok(Act::Give)),
        (b"add", Some(text)) => Some(number(text).map(Act::Add)),
        (b"mul", Some(text)) => Some(number(text).map(Act::Mul)),
        (b"set", Some(text)) => Some(number(text).map(Act::Set)),
        _ => None,
    }
}

// An act with its own set.
#[tactic(auto, unfolding(crate::specs::Parsing::Parts::deed_of))]
pub(crate) fn deed_of(act: Result<Act, ScriptKind>, set: Option<&[u8]>) -> Result<Deed, ScriptKind>
    ensures { result ≡ deed_of act (option_copied set.entry) }
{
    let act = act?;
    let set = set_behind(set)?;
    Ok(Deed { act, set })
}
