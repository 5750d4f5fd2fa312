use crate::{Chains, Leaf};
use std::test::Fail;

const FIRST: Leaf = Leaf {
    page: 7,
    index: 511,
    writable: true,
};

const SECOND: Leaf = Leaf {
    page: 8,
    index: 3,
    writable: false,
};

const THIRD: Leaf = Leaf {
    page: 8,
    index: 4,
    writable: true,
};

#[test]
fn leaves_come_and_go(rt: HostRuntime) -> Result<(), Fail> {
    let mut chains = Chains::new(rt.alloc(), 2)?;
    assert_eq!(rt; chains.frames(), 2);
    chains.reserve(3)?;
    assert_eq!(rt; chains.spare(), 3);
    chains.link(1, SECOND);
    chains.link(1, THIRD);
    chains.link(1, FIRST);
    assert_eq!(rt; chains.spare(), 0);
    let mut walk = chains.walk(1);
    assert_eq!(rt; walk.next(), Some(FIRST));
    assert_eq!(rt; walk.next(), Some(SECOND));
    assert_eq!(rt; walk.next(), Some(THIRD));
    assert_eq!(rt; walk.next(), None);
    assert_eq!(rt; walk.next(), None);
    assert_eq!(rt; chains.walk(0).next(), None);
    chains.unlink(1, SECOND);
    assert_eq!(rt; chains.spare(), 1);
    let mut walk = chains.walk(1);
    assert_eq!(rt; walk.next(), Some(FIRST));
    assert_eq!(rt; walk.next(), Some(THIRD));
    assert_eq!(rt; walk.next(), None);
    chains.reserve(1)?;
    assert_eq!(rt; chains.spare(), 1);
    chains.link(0, SECOND);
    assert_eq!(rt; chains.walk(0).next(), Some(SECOND));
    Ok(())
}
