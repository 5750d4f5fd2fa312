//! Which accesses of a step stray. No access is made here.
ghost use Rattle.std.specs.Prelude.{◌≡◌, ◌||◌, ◌<◌, ◌^◌, IfSome, IsSome};
ghost use Rattle.gv_gpu.specs.Physical.{image_address, page_strays, is_own_image, read_page, write_page, read_strays, written_strays, write_strays};
ghost use Rattle.gv_engine.specs.Soft.{loaded_of};
ghost use Rattle.gv_engine.specs.Walk.{walk_of, writable_page, tables_stray};
ghost use Rattle.gv_engine.specs.Whole.{whole};

use crate::SoftGpu;
use crate::context::Context;
use crate::walk::{Walk, is_page};
use gv_ctx::Descriptor;
use gv_types::{GuestId, PAGE_BYTES};

/// Whether an access strayed, before or now.
pub(crate) fn either(before: bool, now: bool) -> bool
    ensures { result ≡ (before || now) }
{
    before || now
}

/// The page that an access reaches, and whether it strays.
#[derive(Drop)]
pub(crate) struct Reached {
    pub page: Option<u64>,
    pub strayed: bool,
}

/// Where a context's image begins, as a global address.
fn image_of(descriptor: u64) -> u64
    ensures value { result ≡ image_address descriptor }
    ensures small { result < 2 ^ 32 }
{
    u64::from(Descriptor::of(descriptor).page) * PAGE_BYTES
}

impl SoftGpu {
    fn page_strays(&self, owner: GuestId, page: Option<u64>) -> bool
        ensures { result ≡ page_strays (whole self.now) owner.0 page }
    {
        let Some(page) = page else {
            return false;
        };
        match self.label(page) {
            None => false,
            Some(label) => label.guest.0 != owner.0,
        }
    }

    /// Whether a walk reads a table of another guest's.
    fn tables_stray(&self, owner: GuestId, walk: &Walk) -> bool
        ensures { result ≡ tables_stray (whole self.now) owner.0 walk.now }
    {
        self.page_strays(owner, walk.root)
            || self.page_strays(owner, walk.third)
            || self.page_strays(owner, walk.second)
            || self.page_strays(owner, walk.first)
    }

    /// Whether a page is one of the two of the context's own image.
    #[tactic(auto, unfolding(gv_gpu::specs::Physical::is_own_image))]
    fn is_own_image(&self, context: &Context, page: u64) -> bool
        ensures { result ≡ is_own_image (whole self.now) (loaded_of context.now) page }
    {
        let image = image_of(context.descriptor);
        let first = self.read_page(image);
        let second = self.read_page(image + PAGE_BYTES);
        either(is_page(first, page), is_page(second, page))
    }

    fn written_strays(&self, context: &Context, page: Option<u64>) -> bool
        ensures { result ≡ written_strays (whole self.now) (loaded_of context.now) page }
    {
        let Some(page) = page else {
            return false;
        };
        match self.label(page) {
            None => false,
            Some(label) => {
                label.guest.0 != context.owner.0
                    || (label.shadow && !self.is_own_image(context, page))
            }
        }
    }

    /// What a context reads at an address.
    pub(crate) fn reading(&self, context: &Context, global: bool, at: u64) -> Reached
        ensures page { result.page ≡ read_page (whole self.now) context.now.root global at }
        ensures live { IfSome result.page (λ page. IsSome ((whole self.now).label page)) }
        ensures strayed { result.strayed ≡ read_strays (whole self.now) (loaded_of context.now) global at }
    {
        let walk = self.walk(context.root, global, at);
        let page = self.page_of(walk.entry);
        let tables = self.tables_stray(context.owner, &walk);
        let strayed = either(tables, self.page_strays(context.owner, page));
        Reached { page, strayed }
    }

    /// What a context writes at an address, by its walk.
    pub(crate) fn writing_by(&self, context: &Context, walk: &Walk) -> Reached
        ensures page { result.page ≡ writable_page (whole self.now) walk.now.entry }
        ensures live { IfSome result.page (λ page. IsSome ((whole self.now).label page)) }
        ensures strayed { result.strayed ≡ (tables_stray (whole self.now) context.now.owner.0 walk.now || written_strays (whole self.now) (loaded_of context.now) (writable_page (whole self.now) walk.now.entry)) }
    {
        let page = self.writable_page(walk.entry);
        let tables = self.tables_stray(context.owner, walk);
        let strayed = either(tables, self.written_strays(context, page));
        Reached { page, strayed }
    }

    /// What a context writes at an address.
    pub(crate) fn writing(&self, context: &Context, global: bool, at: u64) -> Reached
        ensures page { result.page ≡ write_page (whole self.now) context.now.root global at }
        ensures live { IfSome result.page (λ page. IsSome ((whole self.now).label page)) }
        ensures strayed { result.strayed ≡ write_strays (whole self.now) (loaded_of context.now) global at }
    {
        let walk = self.walk(context.root, global, at);
        self.writing_by(context, &walk)
    }
}
