//! Values in memory of their own.

use items::{Boxed, Items};
use std::test::Fail;

#[test]
fn items_come_from_a_vector_and_go_back(rt: HostRuntime) -> Result<(), Fail> {
    let mut items = Items::new(rt.alloc());
    assert!(rt; items.is_empty());
    items.push(4u8)?;
    items.push(2)?;
    let copy = items.clone()?;
    assert!(rt; copy == items);
    assert_eq!(rt; copy.len(), 2);
    assert_eq!(rt; copy.as_slice(), [4, 2].as_slice());
    assert_eq!(rt;
        Items::from(items.into_vec()).into_vec().as_slice(),
        [4, 2].as_slice()
    );
    assert_eq!(rt; *Boxed::new(rt.alloc(), 7u8)?.get(), 7);
    Ok(())
}
