// The shard of a term.
ghost use Rattle.std.specs.Prelude.{◌≡◌};
ghost use Rattle.document_terms.specs.Shards.{shard_of};

// The sum of a term's bytes, modulo 16.
pub(crate) fn shard_of(term: &str) -> u8
    ensures { result ≡ shard_of term.now }
{
    let mut sum = 0;
    for byte in term.as_bytes() {
        sum = (sum + byte % 16) % 16;
    }
    sum
}
