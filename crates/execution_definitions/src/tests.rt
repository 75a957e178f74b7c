// What no clause says: the text of a refusal.

use crate::Refusal;
use ss_base::{ObjectId, SetId};
use std::test::Fail;

#[test]
fn a_refusal_says_why(rt: HostRuntime) -> Result<(), Fail> {
    let two_sets = Refusal::TwoSets {
        object: ObjectId(3),
        first: SetId(1),
        second: SetId(2),
    };
    let private = Refusal::Private {
        object: ObjectId(3),
        set: SetId(1),
    };
    let texts = [
        (
            Refusal::UnknownObject(ObjectId(3)),
            "no object has the number 3",
        ),
        (Refusal::NotIsolating, "no epoch of isolation is open"),
        (Refusal::Isolating, "an epoch of isolation is open"),
        (Refusal::ReadOnly(ObjectId(3)), "object 3 is read-only"),
        (two_sets, "object 3 is in set 1, not in set 2"),
        (Refusal::Shared(ObjectId(3)), "object 3 is read-shared"),
        (Refusal::SelfRead(ObjectId(3)), "object 3 reads itself"),
        (private, "object 3 is private to set 1"),
        (Refusal::TooManyObjects, "too many objects"),
        (Refusal::TooManyCalls, "too many calls"),
    ];
    for (refusal, text) in texts {
        let told = format!(in rt.alloc(); "{refusal}")?;
        assert_eq!(rt; told.as_str(), text);
    }
    Ok(())
}
