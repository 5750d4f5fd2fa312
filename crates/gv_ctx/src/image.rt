ghost use Rattle.std.specs.Prelude.{◌≡◌, IfOk};

use crate::limits::{MAX_RING_PAGES, PAGE_BYTES, PAGE_DWORDS};
use std::error::Error;
use std::fmt;

/// The register state of a context: the head and the tail as byte offsets into the ring, the ring's
/// global address and its pages, and the frame of the root of its per-process tables (bits 47..12 of
/// PDP0).
#[derive(Clone, Copy, Debug, PartialEq, Eq)]
pub struct Image {
    pub head: u32,
    pub tail: u32,
    pub start: u32,
    pub pages: u32,
    pub root: u64,
}

/// The register state of a context isn't one that an engine runs.
#[derive(Clone, Copy, Debug, PartialEq, Eq)]
pub struct BadContext;

impl fmt::Display for BadContext {
    fn fmt<W: fmt::Write>(&self, f: &mut fmt::Formatter<W>) -> fmt::Result {
        write!(f, "the context is bad")
    }
}

impl Error for BadContext {}

impl Image {
    ghost use Rattle.gv_ctx.specs.Image.{image_read, image_of, is_good, IsImage};

    /// Reads the second page of a context, as dwords: head (0x05), tail (0x07), ring start (0x09),
    /// ring control (0x0B) and PDP0 (0x31 high, 0x33 low).
    ///
    /// `BadContext` where the ring isn't enabled or has more than 16 pages, where its start isn't at
    /// a page, where the tail isn't a multiple of 8 below the ring's size, or where the head isn't
    /// below it.
    pub fn read(page: &[u32; PAGE_DWORDS]) -> Result<Self, BadContext>
        ensures value { result ≡ image_read page.now }
        ensures form { IfOk result IsImage }
    {
        let image = Image::of(page);
        if image.is_good(page[0x0b]) {
            Ok(image)
        } else {
            Err(BadContext)
        }
    }

    /// The fields, whether they are good or not.
    fn of(page: &[u32; PAGE_DWORDS]) -> Self
        ensures { result ≡ image_of page.now }
    {
        Image {
            head: ((page[0x05] >> 2) & 0x7_ffff) * 4,
            tail: page[0x07],
            start: page[0x09],
            pages: ((page[0x0b] >> 12) & 0x1ff) + 1,
            root: u64::from(page[0x31] & 0xffff) * 0x10_0000 + u64::from(page[0x33] >> 12),
        }
    }

    /// The tests, with the ring's control dword.
    fn is_good(&self, control: u32) -> bool
        ensures { result ≡ is_good self.now control }
    {
        let ring_size = u64::from(self.pages) * u64::from(PAGE_BYTES);
        control & 1 == 1
            && self.pages <= MAX_RING_PAGES
            && self.start % PAGE_BYTES == 0
            && self.tail % 8 == 0
            && u64::from(self.tail) < ring_size
            && u64::from(self.head) < ring_size
    }
}

#[cfg(test)]
mod tests {
    use crate::{BadContext, Image, PAGE_DWORDS};
    use std::test::Fail;

    /// A page of zeros but for these dwords.
    fn page(head: u32, tail: u32, start: u32, control: u32) -> [u32; PAGE_DWORDS] {
        let mut page = [0; PAGE_DWORDS];
        page[0x05] = head;
        page[0x07] = tail;
        page[0x09] = start;
        page[0x0b] = control;
        page[0x31] = 0xffff_0001;
        page[0x33] = 0x8fff;
        page
    }

    #[test]
    fn images_are_read_or_bad(rt: HostRuntime) -> Result<(), Fail> {
        let good = Image {
            head: 0x18,
            tail: 0xff8,
            start: 0x2000,
            pages: 1,
            root: 0x10_0008,
        };
        assert_eq!(rt;
            Image::read(&page(0xffe0_001b, 0xff8, 0x2000, 0xffe0_0fff)),
            Ok(good)
        );
        assert_eq!(rt;
            Image::read(&[0; PAGE_DWORDS]),
            Err(BadContext),
            "the ring isn't enabled"
        );
        for (head, tail, start, control) in [
            (0, 0, 0x2000, 0x1_0001),
            (0, 0, 0x2800, 1),
            (0, 4, 0x2000, 1),
            (0, 0x1000, 0x2000, 1),
            (0x1000, 0, 0x2000, 1),
        ] {
            let read = Image::read(&page(head, tail, start, control));
            assert_eq!(rt;
                read,
                Err(BadContext),
                "{head:x} {tail:x} {start:x} {control:x}"
            );
        }
        Ok(())
    }
}
