// Laws of the calls that build an index.
ghost use Rattle.indexer.specs.BuildCalls.{BuildIsSound, BuildLeaves};

/// None of the calls that build an index is refused, for any documents and stopped terms. It does
/// nothing: its contract is a law of the definitions.
pub fn the_calls_of_build_are_sound()
    ensures { BuildIsSound }
{}

/// The calls that build an index leave the split documents, and in each shard all of them. It does
/// nothing: its contract is a law of the definitions.
pub fn what_the_calls_of_build_leave()
    ensures { BuildLeaves }
{}
