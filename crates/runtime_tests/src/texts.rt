// What no clause says: the text of a fault. That of a refusal is the refusal's own.

use delegation::Fault;
use execution_definitions::Refusal;
use ss_base::ObjectId;
use std::test::Fail;

#[test]
fn a_fault_says_why(rt: HostRuntime) -> Result<(), Fail> {
    let texts = [
        (
            Fault::Refused(Refusal::ReadOnly(ObjectId(3))),
            "object 3 is read-only",
        ),
        (Fault::OutOfMemory, "out of memory"),
    ];
    for (fault, text) in texts {
        let told = format!(in rt.alloc(); "{fault}")?;
        assert_eq!(rt; told.as_str(), text);
    }
    Ok(())
}
