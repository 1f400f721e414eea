//! What a cause says, in words.

use std::alloc::Global;
use std::test::Fail;
use stmt_groups::{Cause, Text};

/// Whether the cause is written as this line.
fn says(alloc: Global, cause: &Cause, line: &str) -> Result<bool, Fail> {
    let text = format!(in alloc; "{cause}")?;
    Ok(text.as_str() == line)
}

#[test]
fn causes_say_why(rt: HostRuntime) -> Result<(), Fail> {
    let alloc = rt.alloc();
    assert!(rt; says(alloc, &Cause::Nothing, "the document has no statement")?);
    let line = "the label map is not one-to-one at 2";
    assert!(rt; says(alloc, &Cause::Labels(2), line)?);
    let line = "the mandatory index at place 3 is no statement's";
    assert!(rt; says(alloc, &Cause::Indexes(3), line)?);
    let count = Cause::Count {
        signatures: 1,
        statements: 4,
    };
    let line = "1 signatures stand for 4 statements that are not mandatory";
    assert!(rt; says(alloc, &count, line)?);
    let line = "the issuer's signature is not accepted";
    assert!(rt; says(alloc, &Cause::BaseSignature, line)?);
    let line = "the signature of the statement at place 5 is not accepted";
    assert!(rt; says(alloc, &Cause::StatementSignature(5), line)?);
    Ok(())
}

#[test]
fn an_expiry_says_both_moments(rt: HostRuntime) -> Result<(), Fail> {
    let expired = Cause::Expired {
        expires: Text::from_str(rt.alloc(), "2026-01-01T00:00:00Z")?,
        moment: Text::from_str(rt.alloc(), "2026-01-02T00:00:00Z")?,
    };
    let line = "the proof expired at 2026-01-01T00:00:00Z, before 2026-01-02T00:00:00Z";
    assert!(rt; says(rt.alloc(), &expired, line)?);
    Ok(())
}
