//! Texts and lists, called once each.

use setl_tree::{Boxed, Items, Text};
use std::test::Fail;

#[test]
fn a_text_has_the_bytes_that_it_was_made_of(rt: HostRuntime) -> Result<(), Fail> {
    let text = Text::of(rt.alloc(), b"ab")?;
    assert_eq!(rt; text.bytes(), b"ab".as_slice());
    Ok(())
}

#[test]
fn items_stand_in_the_order_in_which_they_were_put(rt: HostRuntime) -> Result<(), Fail> {
    let mut items = Items::new(rt.alloc());
    items.push(1)?;
    items.append(Items::from_vec(vec![in rt.alloc(); 2, 3]?))?;
    assert_eq!(rt; items.len(), 3);
    assert!(rt; !items.is_empty());
    assert_eq!(rt; items.as_slice(), [1, 2, 3].as_slice());
    assert_eq!(rt; items.pop(), Some(3));
    assert_eq!(rt; items.into_vec().as_slice(), [1, 2].as_slice());
    let boxed = Boxed::new(rt.alloc(), 7)?;
    assert_eq!(rt; *boxed.get(), 7);
    assert_eq!(rt; boxed.into_inner(), 7);
    Ok(())
}
