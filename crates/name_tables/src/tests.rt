use crate::{NameSet, NameStack};
use std::test::Fail;

#[test]
fn a_name_is_put_once(rt: HostRuntime) -> Result<(), Fail> {
    let mut names = NameSet::new(rt.alloc());
    assert!(rt; !names.contains(b"f"));
    names.insert(rt.alloc(), b"f")?;
    names.insert(rt.alloc(), b"g")?;
    names.insert(rt.alloc(), b"f")?;
    assert_eq!(rt; names.len(), 2);
    assert_eq!(rt; names.place_of(b"f"), Some(0));
    assert_eq!(rt; names.place_of(b"g"), Some(1));
    assert_eq!(rt; names.place_of(b"h"), None);
    assert!(rt; names.contains(b"g"));
    Ok(())
}

#[test]
fn names_that_were_cut_off_may_come_again(rt: HostRuntime) -> Result<(), Fail> {
    let mut names = NameSet::new(rt.alloc());
    names.insert(rt.alloc(), b"f")?;
    names.insert(rt.alloc(), b"g")?;
    names.truncate(1);
    assert_eq!(rt; names.len(), 1);
    assert!(rt; names.contains(b"f"));
    assert!(rt; !names.contains(b"g"));
    names.insert(rt.alloc(), b"h")?;
    names.insert(rt.alloc(), b"g")?;
    assert_eq!(rt; names.place_of(b"g"), Some(2));
    Ok(())
}

#[test]
fn the_last_entry_of_a_name_counts(rt: HostRuntime) -> Result<(), Fail> {
    let mut stack: NameStack<u32> = NameStack::new(rt.alloc());
    assert_eq!(rt; stack.find(b"x"), None);
    stack.push(rt.alloc(), b"x", 1)?;
    stack.push(rt.alloc(), b"y", 2)?;
    stack.push(rt.alloc(), b"x", 3)?;
    stack.push(rt.alloc(), b"x", 4)?;
    assert_eq!(rt; stack.len(), 4);
    assert_eq!(rt; stack.find(b"x"), Some(&4));
    assert_eq!(rt; stack.find(b"y"), Some(&2));
    stack.truncate(3);
    assert_eq!(rt; stack.find(b"x"), Some(&3));
    stack.truncate(1);
    assert_eq!(rt; stack.find(b"x"), Some(&1));
    assert_eq!(rt; stack.find(b"y"), None);
    stack.push(rt.alloc(), b"y", 5)?;
    assert_eq!(rt; stack.find(b"y"), Some(&5));
    stack.truncate(0);
    assert_eq!(rt; stack.len(), 0);
    assert_eq!(rt; stack.find(b"x"), None);
    Ok(())
}

#[test]
fn values_may_own_memory(rt: HostRuntime) -> Result<(), Fail> {
    let mut stack: NameStack<String> = NameStack::new(rt.alloc());
    stack.push(rt.alloc(), b"a", String::from_str(rt.alloc(), "one")?)?;
    stack.push(rt.alloc(), b"a", String::from_str(rt.alloc(), "two")?)?;
    stack.truncate(1);
    let found = stack.find(b"a").map(|value| value.as_str());
    assert_eq!(rt; found, Some("one"));
    Ok(())
}
