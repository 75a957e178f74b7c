//! What an index is: the definitions that contracts cite, and laws of them.
#![tactic(auto)]

ghost use Rattle.index_definitions.specs.Terms.{TermsAreTheOneRisingList};
ghost use Rattle.index_definitions.specs.Indexes.{IndexIsWellFormed, IndexSaysItsPostings};
ghost use Rattle.index_definitions.specs.Indexes.{IndexIsThatOfItsPostings};

/// The terms of a list, each once and in order, are the one strictly rising list that has these
/// terms. It does nothing: its contract is a law of the definitions.
pub fn terms_are_the_one_rising_list()
    ensures { TermsAreTheOneRisingList }
{}

/// The index of documents has the form of an index: its terms rise, each with its postings, and its
/// counts are theirs. It does nothing: its contract is a law of the definitions.
pub fn an_index_is_well_formed()
    ensures { IndexIsWellFormed }
{}

/// The index of documents says just their postings, each once. It does nothing: its contract is a law
/// of the definitions.
pub fn an_index_says_its_postings()
    ensures { IndexSaysItsPostings }
{}

/// A record that has the form of an index is the index of the postings that it says. So an index is
/// determined by its number of documents and its postings. It does nothing: its contract is a law of
/// the definitions.
pub fn an_index_is_that_of_its_postings()
    ensures { IndexIsThatOfItsPostings }
{}
