// Laws of the spelling of postings.
ghost use Rattle.postings.specs.Spelling.{NoTwoSpellings, NoTwoLists};

/// No list of postings has two spellings. It does nothing: its contract is a law of the definitions.
pub fn no_list_has_two_spellings()
    ensures { NoTwoSpellings }
{}

/// No bytes spell two lists of postings. It does nothing: its contract is a law of the definitions.
pub fn no_bytes_spell_two_lists()
    ensures { NoTwoLists }
{}
