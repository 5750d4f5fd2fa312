ghost use Rattle.std.specs.Prelude.{◌≡◌, IfOk, OnOk, IsErrOf, true, false, All, AllPairs};
ghost use Rattle.gv_entry.specs.Ranges.{InParts};
ghost use Rattle.gv_balloon.specs.Shares.{nothing_given, ranges_from, all_fit, AreApart};

use crate::Given;
use gv_types::{Ranges, Want};
use std::alloc::{AllocError, AllocFailed, Global};
use std::error::Error;
use std::fmt;

/// Why no ranges are given: want of memory, or pages past the end of a part.
#[derive(Clone, Copy, Debug, PartialEq, Eq)]
pub enum AssignFault {
    OutOfMemory,
    DoesNotFit,
}

impl fmt::Display for AssignFault {
    fn fmt<W: fmt::Write>(&self, f: &mut fmt::Formatter<W>) -> fmt::Result {
        match self {
            AssignFault::OutOfMemory => write!(f, "out of memory"),
            AssignFault::DoesNotFit => write!(f, "the ranges do not fit"),
        }
    }
}

impl Error for AssignFault {}

impl From<AllocError> for AssignFault {
    ghost use Rattle.std.specs.Prelude.{◌≡◌};
    ghost use Rattle.gv_balloon.specs.declared.ballooning.AssignFault.TheVariants.{OutOfMemory};

    ghost from_gives = { λ _ e. e ≡ OutOfMemory };

    fn from(_: AllocError) -> Self {
        AssignFault::OutOfMemory
    }
}

impl From<AllocFailed<Ranges>> for AssignFault {
    ghost use Rattle.std.specs.Prelude.{◌≡◌};
    ghost use Rattle.gv_balloon.specs.declared.ballooning.AssignFault.TheVariants.{OutOfMemory};

    ghost from_gives = { λ _ e. e ≡ OutOfMemory };

    fn from(_: AllocFailed<Ranges>) -> Self {
        AssignFault::OutOfMemory
    }
}

/// The ranges of guests who want so many pages, in their order: the low ones from page 0 on, the high
/// ones from page 65,536. They don't fit where the low pages are more than 65,536 together, or the high
/// pages more than 966,656.
pub fn assign(alloc: Global, wants: &[Want]) -> Result<Vec<Ranges>, AssignFault>
    ensures ranges { IfOk result (λ ranges. ranges.items ≡ ranges_from nothing_given wants.now) }
    ensures fit { OnOk result (all_fit wants.now ≡ true) }
    ensures does_not_fit { IsErrOf result AssignFault.DoesNotFit → all_fit wants.now ≡ false }
    ensures apart { IfOk result (λ ranges. AllPairs AreApart ranges.items) }
    ensures parts { IfOk result (λ ranges. All InParts ranges.items) }
{
    let mut given = Given::NOTHING;
    let mut ranges = Vec::with_capacity(alloc, wants.len())?;
    for want in wants {
        if !given.fits(want) {
            return Err(AssignFault::DoesNotFit);
        }
        ranges.push(given.next(want))?;
        given = given.after(want);
    }
    Ok(ranges)
}

#[cfg(test)]
mod tests {
    use crate::{AssignFault, assign};
    use gv_types::{Span, Want};

    fn want(low: u32, high: u32) -> Want {
        Want { low, high }
    }

    #[test]
    fn two_guests(rt: HostRuntime) {
        let ranges = assign(rt.alloc(), &[want(16, 8), want(16, 8)]).expect(&rt, "room");
        assert_eq!(rt; ranges.len(), 2);
        for (index, span) in [
            Span {
                first: 0,
                pages: 16,
            },
            Span {
                first: 16,
                pages: 16,
            },
        ]
        .iter()
        .enumerate()
        {
            assert_eq!(rt; ranges[index].low, *span);
        }
        for (index, span) in [
            Span {
                first: 65_536,
                pages: 8,
            },
            Span {
                first: 65_544,
                pages: 8,
            },
        ]
        .iter()
        .enumerate()
        {
            assert_eq!(rt; ranges[index].high, *span);
        }
    }

    #[test]
    fn the_ends_of_the_parts(rt: HostRuntime) {
        assert!(rt; assign(rt.alloc(), &[want(65_535, 0), want(1, 966_656)]).is_ok());
        for wants in [
            [want(65_535, 0), want(2, 0)],
            [want(0, 966_656), want(0, 1)],
            [want(u32::MAX, 0), want(u32::MAX, u32::MAX)],
        ] {
            let refused = assign(rt.alloc(), &wants).err();
            assert_eq!(rt; refused, Some(AssignFault::DoesNotFit));
        }
    }
}
