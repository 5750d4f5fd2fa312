ghost use Rattle.std.specs.Prelude.{◌≡◌, ◌≤◌, ◌<◌, ◌+◌, ◌*◌, ◌^◌, IsSome, length, slice_index};
ghost use Rattle.gv_types.specs.Memory.{zero_words};
ghost use Rattle.gv_sring.specs.Packing.{packed, packed_into, words_in, HoldsPart};

use gv_ctx::PAGE_DWORDS;
use gv_gpu::Gpu;
use gv_types::PAGE_WORDS;

/// A dword of a list, or 0 past its end.
fn dword(words: &[u32], n: usize) -> u32
    ensures { result ≡ slice_index words.now n }
{
    words.get(n).copied().unwrap_or(0)
}

/// Two dwords of a list as a word, the first one low.
fn packed(words: &[u32], n: usize) -> u64
    requires { n < 2 ^ 20 }
    ensures value { result ≡ packed words.now n }
    ensures low { slice_index words.now (2 * n) < 2 ^ 32 }
    ensures high { slice_index words.now (2 * n + 1) < 2 ^ 32 }
{
    let low = dword(words, 2 * n);
    let high = dword(words, 2 * n + 1);
    u64::from(low) + u64::from(high) * 0x1_0000_0000
}

/// Writes a page's part of a list of dwords into a page of zeros: 1,024 of them, two to a word. As many
/// words are written as there are dwords.
pub(crate) fn pack<G: Gpu>(gpu: &mut G, page: u64, words: &[u32], part: usize)
    requires live { IsSome ((G.state gpu.old).label page) }
    requires zero { (G.state gpu.old).words page ≡ zero_words }
    requires few { length words.now ≤ 262144 }
    requires part { part ≤ 256 }
    ensures device { G.state gpu.new ≡ packed_into (G.state gpu.old) page words.now (512 * part) (words_in words.now part) }
    ensures part { HoldsPart (G.state gpu.new) page words.now part }
{
    let count = ((words.len() + 1).saturating_sub(PAGE_DWORDS * part) / 2).min(PAGE_WORDS);
    for j in 0..count {
        let word = packed(words, PAGE_WORDS * part + j);
        gpu.poke(page, j, word);
    }
}
