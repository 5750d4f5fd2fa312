use crate::{Slots, Status, Submitted};
use std::process::Abort;
use std::test::Fail;

const FIVE: u64 = 0x5_0000_0119;

const SEVEN: u64 = 0x7_0000_0119;

const EIGHT: u64 = 0x8_0000_0119;

const NINE: u64 = 0x9_0000_0119;

// What follows a submission or a completion: the events go into the ring.
fn submit(rt: &impl Abort, slots: &mut Slots, first: u64, second: u64, answer: Submitted) {
    assert_eq!(rt; slots.submit(first, second), answer);
    if answer == (Submitted::Accepted { starts: true }) {
        let _ = slots.push(Status::idle_to_active());
    }
}

fn complete(rt: &impl Abort, slots: &mut Slots, current: u64) {
    assert_eq!(rt; slots.current(), Some(current));
    assert!(rt; slots.busy());
    let events = slots.complete();
    let _ = slots.push(events.first);
    if let Some(second) = events.second {
        let _ = slots.push(second);
    }
}

#[test]
fn both_slots_full(rt: HostRuntime) -> Result<(), Fail> {
    let mut slots = Slots::new();
    assert_eq!(rt; slots.pointer(), 7);
    submit(
        &rt,
        &mut slots,
        FIVE,
        0,
        Submitted::Accepted { starts: true },
    );
    submit(
        &rt,
        &mut slots,
        SEVEN,
        0,
        Submitted::Accepted { starts: false },
    );
    submit(&rt, &mut slots, NINE, 0, Submitted::Dropped);
    complete(&rt, &mut slots, FIVE);
    complete(&rt, &mut slots, SEVEN);
    assert_eq!(rt; slots.busy(), false);
    assert_eq!(rt; slots.current(), None);
    for (index, pair) in [
        (0, (0x1, 0)),
        (1, (0x18, 5)),
        (2, (0x1, 0)),
        (3, (0x18, 7)),
        (4, (0, 0)),
    ] {
        assert_eq!(rt; slots.pair(index), pair, "pair {index}");
    }
    assert_eq!(rt; slots.pointer(), 3);
    slots.clear();
    assert_eq!(rt; slots.pointer(), 7);
    assert_eq!(rt; slots.pair(3), (0, 0));
    Ok(())
}

#[test]
fn status_ring_wraps(rt: HostRuntime) -> Result<(), Fail> {
    let mut slots = Slots::new();
    submit(
        &rt,
        &mut slots,
        FIVE,
        SEVEN,
        Submitted::Accepted { starts: true },
    );
    complete(&rt, &mut slots, FIVE);
    complete(&rt, &mut slots, SEVEN);
    submit(
        &rt,
        &mut slots,
        EIGHT,
        0,
        Submitted::Accepted { starts: true },
    );
    complete(&rt, &mut slots, EIGHT);
    submit(
        &rt,
        &mut slots,
        NINE,
        0,
        Submitted::Accepted { starts: true },
    );
    complete(&rt, &mut slots, NINE);
    for (index, pair) in [
        (0, (0x18, 9)),
        (1, (0x14, 5)),
        (2, (0x18, 7)),
        (3, (0x1, 0)),
        (4, (0x18, 8)),
        (5, (0x1, 0)),
    ] {
        assert_eq!(rt; slots.pair(index), pair, "pair {index}");
    }
    assert_eq!(rt; slots.pointer(), 0);
    Ok(())
}

#[test]
fn the_read_pointer_is_masked(rt: HostRuntime) -> Result<(), Fail> {
    let mut slots = Slots::default();
    for (value, pointer) in [
        (0x0700_0500, 0x507),
        (0x0100_0200, 0x407),
        (0x0007_0003, 0x407),
        (0xffff_0300, 0x307),
    ] {
        slots.set_pointer(value);
        assert_eq!(rt; slots.pointer(), pointer, "{value:x}");
    }
    assert_eq!(rt; slots.submit(FIVE - 1, SEVEN), Submitted::Dropped);
    assert_eq!(rt; slots.busy(), false);
    Ok(())
}
