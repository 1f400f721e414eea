//! What no clause says of out of memory, and the calls that no crate above makes yet.

use base_types::{Memory, Sequence, Shared, Text};
use std::test::Fail;

#[test]
fn a_shared_value_outlives_its_first_owner(rt: HostRuntime) -> Result<(), Fail> {
    let first = Shared::new(rt.alloc(), Text::from_str(rt.alloc(), "one")?)?;
    let second = first.share()?;
    assert_eq!(rt; first.get().as_str(), "one");
    drop(first);
    assert_eq!(rt; second.get().as_str(), "one");
    Ok(())
}

#[test]
fn the_last_of_a_sequence_is_taken(rt: HostRuntime) -> Result<(), Fail> {
    let mut texts = Sequence::new(rt.alloc());
    texts.push(Text::from_str(rt.alloc(), "a")?)?;
    texts.push(Text::from_str(rt.alloc(), "b")?)?;
    let last = texts.pop();
    assert_eq!(rt; last.as_ref().map(|text| text.as_str()), Some("b"));
    assert_eq!(rt; texts.len(), 1usize);
    drop(texts.pop());
    assert!(rt; texts.is_empty());
    assert!(rt; texts.pop().is_none());
    Ok(())
}

#[test]
fn out_of_memory_says_so(rt: HostRuntime) -> Result<(), Fail> {
    let text = format!(in rt.alloc(); "{Memory}")?;
    assert_eq!(rt; text.as_str(), "out of memory");
    Ok(())
}
