//! The physical walk, as a device makes it: four entries, of which the page and two bits count.
ghost use Rattle.std.specs.Prelude.{◌≡◌, ℕ, ◌-◌, ◌<◌, ◌≤◌, IfSome, slice_index};
ghost use Rattle.gv_trees.specs.Served.{IsServed, IsTable};

use crate::guest::Guest;
use crate::plain::index_of;
use gv_gpu::Gpu;

/// The host page that an address leads to through a root's shadow table, and whether it is writable.
pub fn walked<G: Gpu>(gpu: &G, guest: &Guest, root: u32, at: u64) -> Option<(u64, bool)>
    requires { IsServed (G.state gpu.now) guest.now.memory guest.now.tables }
{
    let fourth = root_page(guest, root)?;
    let third = next(gpu, guest, fourth, 4, at)?;
    let second = next(gpu, guest, third, 3, at)?;
    let first = next(gpu, guest, second, 2, at)?;
    let entry = entry(gpu, guest, first, 1, at);
    if entry % 2 == 0 {
        return None;
    }
    Some((entry / 4096, entry / 2 % 2 == 1))
}

/// The host page of a root's shadow table.
pub fn root_page(guest: &Guest, root: u32) -> Option<u64>
    ensures { IfSome result (λ page. IsTable guest.now.tables 4 page) }
{
    if !guest.tables.is_root(root) {
        return None;
    }
    Some(guest.tables.shadow_root(root))
}

// The entry of a shadow table for an address.
fn entry<G: Gpu>(gpu: &G, guest: &Guest, page: u64, level: u8, at: u64) -> u64
    requires served { IsServed (G.state gpu.now) guest.now.memory guest.now.tables }
    requires table { IsTable guest.now.tables level page }
    ensures { (index : ℕ) × ((index < 512) × (result ≡ slice_index ((G.state gpu.now).words page) index)) }
{
    let index = index_of(at, level);
    gpu.word(page, index as usize)
}

// The table that it names.
fn next<G: Gpu>(gpu: &G, guest: &Guest, page: u64, level: u8, at: u64) -> Option<u64>
    requires served { IsServed (G.state gpu.now) guest.now.memory guest.now.tables }
    requires table { IsTable guest.now.tables level page }
    requires above { 2 ≤ level }
    ensures { IfSome result (λ below. IsTable guest.now.tables (level - 1) below) }
{
    let entry = entry(gpu, guest, page, level, at);
    if entry % 2 == 0 {
        return None;
    }
    Some(entry / 4096)
}
