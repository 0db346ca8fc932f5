//! Values that are found by their numbers, in either order of these.

use crate::{ByNumber, Numbered};
use std::alloc::{AllocError, Global};
use std::test::Fail;

/// Values that have these numbers, and are their places.
fn numbered(alloc: Global, numbers: &[u32]) -> Result<ByNumber<usize>, AllocError> {
    let mut values = ByNumber::new(alloc);
    for (value, number) in numbers.iter().enumerate() {
        values.push(Numbered {
            number: *number,
            value,
        })?;
    }
    Ok(values)
}

#[test]
fn the_newest_of_a_number_is_found(rt: HostRuntime) -> Result<(), Fail> {
    let ascending = numbered(rt.alloc(), &[1, 3, 3, 5])?;
    assert_eq!(&rt; ascending.find(0), None);
    assert_eq!(&rt; ascending.find(1), Some(0));
    assert_eq!(&rt; ascending.find(3), Some(2));
    assert_eq!(&rt; ascending.find(4), None);
    assert_eq!(&rt; ascending.find(6), None);
    let falling = numbered(rt.alloc(), &[3, 5, 3, 1])?;
    assert_eq!(&rt; falling.find(3), Some(2));
    assert_eq!(&rt; falling.find(5), Some(1));
    assert_eq!(&rt; falling.find(4), None);
    Ok(())
}

#[test]
fn what_came_after_a_mark_is_cut(rt: HostRuntime) -> Result<(), Fail> {
    let mut values = numbered(rt.alloc(), &[1, 3])?;
    let mark = values.mark();
    values.push(Numbered {
        number: 3,
        value: 7,
    })?;
    assert_eq!(&rt; values.find(3), Some(7));
    values.cut(mark);
    assert_eq!(&rt; values.find(3), Some(1));
    Ok(())
}
