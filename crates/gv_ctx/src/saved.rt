ghost use Rattle.std.specs.Prelude.{◌≡◌};

/// A batch that is entered: the address of its next command, and whether it is live, which is read
/// in the per-process space, or fetched, which is read in the global space.
#[derive(Clone, Copy, Debug, PartialEq, Eq)]
pub struct Batch {
    pub at: u64,
    pub live: bool,
}

impl Batch {
    ghost use Rattle.gv_ctx.specs.Saved.{high_of, low_of, state_of, batch_of};

    /// The three fields of a batch, or of none: address high, address low, state.
    fn fields(batch: Option<Batch>) -> (u32, u32, u32)
        ensures high { result.0 ≡ high_of batch }
        ensures low { result.1 ≡ low_of batch }
        ensures state { result.2 ≡ state_of batch }
        ensures back { batch_of result.0 result.1 result.2 ≡ batch }
    {
        match batch {
            None => (0, 0, 0),
            Some(Batch { at, live }) => (
                (at >> 32) as u32,
                (at & 0xffff_ffff) as u32,
                if live { 3 } else { 1 },
            ),
        }
    }

    fn of(high: u32, low: u32, state: u32) -> Option<Batch>
        ensures { result ≡ batch_of high low state }
    {
        if state & 1 == 0 {
            return None;
        }
        Some(Batch {
            at: u64::from(high) * 0x1_0000_0000 + u64::from(low),
            live: (state >> 1) & 1 == 1,
        })
    }
}

/// A place in a context's commands: the ring's byte offset, and the batches that were entered from
/// it and from the first one.
#[derive(Clone, Copy, Debug, PartialEq, Eq)]
pub struct Saved {
    pub ring: u32,
    pub first: Option<Batch>,
    pub second: Option<Batch>,
}

impl Saved {
    ghost use Rattle.gv_ctx.specs.Saved.{fields_of, saved_of};

    /// The seven fields of a place, as a shadow image holds them: the ring's byte offset, then for
    /// the first and the second batch the address's high and low dword and the state, which is 0
    /// for no batch, 1 for a fetched one and 3 for a live one.
    pub fn fields(&self) -> [u32; 7]
        ensures fields { result ≡ fields_of self.now }
        ensures back { saved_of result ≡ self.now }
    {
        let (first_high, first_low, first_state) = Batch::fields(self.first);
        let (second_high, second_low, second_state) = Batch::fields(self.second);
        [
            self.ring,
            first_high,
            first_low,
            first_state,
            second_high,
            second_low,
            second_state,
        ]
    }

    /// The place that seven fields stand for. Of a state bit 0 says that there is a batch, bit 1
    /// that it is live, and the rest means nothing.
    pub fn of(fields: [u32; 7]) -> Self
        ensures { result ≡ saved_of fields }
    {
        Saved {
            ring: fields[0],
            first: Batch::of(fields[1], fields[2], fields[3]),
            second: Batch::of(fields[4], fields[5], fields[6]),
        }
    }
}

#[cfg(test)]
mod tests {
    use crate::{Batch, Descriptor, Saved};
    use std::test::Fail;

    #[test]
    fn a_place_has_seven_dwords(rt: HostRuntime) -> Result<(), Fail> {
        let live = Batch {
            at: 0x7fff_1234_5678,
            live: true,
        };
        let fetched = Batch {
            at: 0xfc02_0040,
            live: false,
        };
        let place = Saved {
            ring: 0x28,
            first: Some(fetched),
            second: Some(live),
        };
        let fields = [0x28, 0, 0xfc02_0040, 1, 0x7fff, 0x1234_5678, 3];
        assert_eq!(rt; place.fields(), fields);
        assert_eq!(rt; Saved::of(fields), place);
        let none = Saved {
            ring: 4,
            first: None,
            second: None,
        };
        assert_eq!(rt; Saved::of([4, 5, 6, 2, 7, 8, 0xffff_fffe]), none);
        let descriptor = Descriptor {
            valid: true,
            mode: 3,
            page: 0x10,
            number: 6,
        };
        assert_eq!(rt; Descriptor::of(0x6_0001_0119), descriptor);
        Ok(())
    }
}
