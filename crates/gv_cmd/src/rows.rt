ghost use Rattle.std.specs.Prelude.{◌≡◌, ◌+◌, ◌*◌, ◌%◌, ◌<◌, ◌≤◌, ◌^◌, IfSome, length, slice_index, Some};
ghost use Rattle.gv_types.specs.Bits.{has_bit};
ghost use Rattle.gv_cmd.specs.Bits.{bits, register, high_part, byte_address, dword_address, quadword_address};
ghost use Rattle.gv_cmd.specs.Table.{semaphore, store, pair_count, store_register, load_register, copy_memory, flush, pipe_control, batch_start, pixel_bytes, is_plain, is_small, load_registers, move_register, colour_fields, copy_fields, colour_blit, copy_blit, table, blit_rows, kind_in, kind_of};
ghost use Rattle.gv_cmd.specs.Kind.{IsKindOf, IsBlit, IsDwordAddress, IsRegister};

use crate::header::{
    ARB_CHECK, ARB_ON_OFF, BATCH_BUFFER_END, BATCH_BUFFER_START, COPY_MEM_MEM, FLUSH_DW,
    LOAD_REGISTER_IMM, LOAD_REGISTER_MEM, LOAD_REGISTER_REG, NOOP, PIPE_CONTROL, SEMAPHORE_WAIT,
    STORE_DATA_IMM, STORE_REGISTER_MEM, USER_INTERRUPT, XY_COLOR_BLT, XY_SRC_COPY_BLT, bit,
    blit_opcode, interface_opcode, pipe_opcode,
};
use crate::{Blit, Kind, PostWrite};

/// The dword with this number, or 0 past the end. Each row reads only dwords that its length has.
pub(crate) fn dword(words: &[u32], n: usize) -> u32
    ensures { result ≡ slice_index words.now n }
{
    words.get(n).copied().unwrap_or(0)
}

/// The register operand at this dword, as a byte offset.
pub(crate) fn register(words: &[u32], n: usize) -> u32
    ensures value { result ≡ register words.now n }
    ensures form { IsRegister result }
{
    ((dword(words, n) >> 2) & 0x1f_ffff) * 4
}

/// Bits 15..0 of an address's high dword, at their place.
fn high_part(words: &[u32], n: usize) -> u64
    requires { n < 65 }
    ensures value { result ≡ high_part words.now n }
    ensures aligned { result % 2 ^ 32 ≡ 0 }
    ensures small { result < 2 ^ 48 }
{
    u64::from(dword(words, n + 1) & 0xffff) * 0x1_0000_0000
}

fn byte_address(words: &[u32], n: usize) -> u64
    requires { n < 65 }
    ensures { result ≡ byte_address words.now n }
{
    high_part(words, n) + u64::from(dword(words, n))
}

fn dword_address(words: &[u32], n: usize) -> u64
    requires { n < 65 }
    ensures value { result ≡ dword_address words.now n }
    ensures form { IsDwordAddress result }
{
    high_part(words, n) + u64::from(dword(words, n) >> 2) * 4
}

fn quadword_address(words: &[u32], n: usize) -> u64
    requires { n < 65 }
    ensures value { result ≡ quadword_address words.now n }
    ensures aligned { result % 8 ≡ 0 }
    ensures small { result < 2 ^ 48 }
{
    high_part(words, n) + u64::from(dword(words, n) >> 3) * 8
}

/// The x or the low half of a dword.
fn low_half(dword: u32) -> u16
    ensures { result ≡ bits dword 15 0 }
{
    (dword & 0xffff) as u16
}

fn high_half(dword: u32) -> u16
    ensures { result ≡ bits dword 31 16 }
{
    (dword >> 16) as u16
}

fn semaphore(words: &[u32]) -> Kind
    ensures value { result ≡ semaphore words.now }
    ensures form { IsKindOf words.now result }
{
    let header = dword(words, 0);
    Kind::SemaphoreWait {
        global: bit(header, 22),
        compare: ((header >> 12) & 7) as u8,
        operand: dword(words, 1),
        at: dword_address(words, 2),
    }
}

fn store(words: &[u32]) -> Kind
    ensures value { result ≡ store words.now }
    ensures form { IsKindOf words.now result }
{
    let header = dword(words, 0);
    let second = dword(words, 4);
    Kind::Store {
        global: bit(header, 22),
        at: dword_address(words, 1),
        low: dword(words, 3),
        high: if bit(header, 21) { Some(second) } else { None },
    }
}

fn load_registers(words: &[u32]) -> Kind
    requires { length words.now ≤ 65 }
    ensures value { result ≡ load_registers words.now }
    ensures form { IsKindOf words.now result }
{
    Kind::LoadRegisters {
        pairs: (words.len().saturating_sub(1) / 2) as u8,
    }
}

fn store_register(words: &[u32]) -> Kind
    ensures value { result ≡ store_register words.now }
    ensures form { IsKindOf words.now result }
{
    Kind::StoreRegister {
        global: bit(dword(words, 0), 22),
        register: register(words, 1),
        at: dword_address(words, 2),
    }
}

fn load_register(words: &[u32]) -> Kind
    ensures value { result ≡ load_register words.now }
    ensures form { IsKindOf words.now result }
{
    Kind::LoadRegister {
        global: bit(dword(words, 0), 22),
        register: register(words, 1),
        at: dword_address(words, 2),
    }
}

fn move_register(words: &[u32]) -> Kind
    ensures value { result ≡ move_register words.now }
    ensures form { IsKindOf words.now result }
{
    Kind::MoveRegister {
        from: register(words, 1),
        to: register(words, 2),
    }
}

fn copy_memory(words: &[u32]) -> Kind
    ensures value { result ≡ copy_memory words.now }
    ensures form { IsKindOf words.now result }
{
    let header = dword(words, 0);
    Kind::CopyMemory {
        from_global: bit(header, 22),
        from: dword_address(words, 3),
        to_global: bit(header, 21),
        to: dword_address(words, 1),
    }
}

fn flush(words: &[u32]) -> Kind
    ensures value { result ≡ flush words.now }
    ensures form { IsKindOf words.now result }
{
    let header = dword(words, 0);
    if (header >> 14) & 3 != 1 {
        return Kind::Flush { write: None };
    }
    let second = dword(words, 4);
    let high = if header & 0x3f == 3 {
        Some(second)
    } else {
        None
    };
    Kind::Flush {
        write: Some(PostWrite {
            global: bit(dword(words, 1), 2),
            at: quadword_address(words, 1),
            low: dword(words, 3),
            high,
        }),
    }
}

fn pipe_control(words: &[u32]) -> Option<Kind>
    ensures value { result ≡ pipe_control words.now }
    ensures form { IfSome result (IsKindOf words.now) }
{
    let flags = dword(words, 1);
    let write = (flags >> 14) & 3;
    if write >= 2 || bit(flags, 21) {
        return None;
    }
    let notify = bit(flags, 8);
    if write == 0 {
        return Some(Kind::PipeControl {
            notify,
            write: None,
        });
    }
    Some(Kind::PipeControl {
        notify,
        write: Some(PostWrite {
            global: bit(flags, 24),
            at: quadword_address(words, 2),
            low: dword(words, 4),
            high: Some(dword(words, 5)),
        }),
    })
}

fn batch_start(words: &[u32]) -> Kind
    ensures value { result ≡ batch_start words.now }
    ensures form { IsKindOf words.now result }
{
    let header = dword(words, 0);
    Kind::BatchStart {
        live: bit(header, 8),
        second: bit(header, 22),
        at: dword_address(words, 1),
    }
}

/// Whether a blit has this raster operation, no depth of 2, a depth of 3 only with header bits 21
/// and 20 set, and no clipping.
fn is_plain(raster: u32, words: &[u32]) -> bool
    ensures { result ≡ is_plain raster words.now }
{
    let header = dword(words, 0);
    let mode = dword(words, 1);
    let depth = (mode >> 24) & 3;
    (mode >> 16) & 0xff == raster
        && depth != 2
        && (depth != 3 || (bit(header, 21) && bit(header, 20)))
        && !bit(mode, 30)
}

/// Whether no coordinate is above 4096 and no pitch above 32767.
fn is_small(blit: &Blit) -> bool
    ensures { result ≡ is_small blit.now }
{
    blit.x1 <= 4096
        && blit.y1 <= 4096
        && blit.x2 <= 4096
        && blit.y2 <= 4096
        && blit.from_x <= 4096
        && blit.from_y <= 4096
        && blit.to_pitch <= 32767
        && blit.from_pitch <= 32767
}

/// Depth, bits 25..24 of BR13, as bytes of a pixel.
fn pixel_bytes(depth: u32) -> u8
    requires { depth < 4 }
    ensures { result ≡ pixel_bytes depth }
{
    if depth == 3 { 4 } else { depth as u8 + 1 }
}

fn colour_fields(words: &[u32]) -> Blit
    ensures { result ≡ colour_fields words.now }
{
    let mode = dword(words, 1);
    Blit {
        bytes: pixel_bytes((mode >> 24) & 3),
        to: byte_address(words, 4),
        to_pitch: low_half(mode),
        x1: low_half(dword(words, 2)),
        y1: high_half(dword(words, 2)),
        x2: low_half(dword(words, 3)),
        y2: high_half(dword(words, 3)),
        colour: dword(words, 6),
        from: 0,
        from_pitch: 0,
        from_x: 0,
        from_y: 0,
    }
}

fn copy_fields(words: &[u32]) -> Blit
    ensures { result ≡ copy_fields words.now }
{
    Blit {
        colour: 0,
        from: byte_address(words, 8),
        from_pitch: low_half(dword(words, 7)),
        from_x: low_half(dword(words, 6)),
        from_y: high_half(dword(words, 6)),
        ..colour_fields(words)
    }
}

fn colour_blit(words: &[u32]) -> Option<Kind>
    ensures value { result ≡ colour_blit words.now }
    ensures form { IfSome result (IsKindOf words.now) }
{
    let blit = colour_fields(words);
    if is_plain(0xf0, words) && is_small(&blit) {
        Some(Kind::ColourBlit(blit))
    } else {
        None
    }
}

fn copy_blit(words: &[u32]) -> Option<Kind>
    ensures value { result ≡ copy_blit words.now }
    ensures form { IfSome result (IsKindOf words.now) }
{
    let blit = copy_fields(words);
    if is_plain(0xcc, words) && is_small(&blit) {
        Some(Kind::CopyBlit(blit))
    } else {
        None
    }
}

fn blit_kind(header: u32, words: &[u32]) -> Option<Kind>
    ensures value { result ≡ kind_in blit_rows header words.now }
    ensures form { IfSome result (IsKindOf words.now) }
{
    match blit_opcode(header) {
        XY_COLOR_BLT => colour_blit(words),
        XY_SRC_COPY_BLT => copy_blit(words),
        _ => None,
    }
}

fn kind_by(header: u32, words: &[u32]) -> Option<Kind>
    requires { length words.now ≤ 65 }
    ensures value { result ≡ kind_in table header words.now }
    ensures form { IfSome result (IsKindOf words.now) }
{
    if pipe_opcode(header) == PIPE_CONTROL {
        return pipe_control(words);
    }
    match interface_opcode(header) {
        NOOP => Some(Kind::Noop),
        USER_INTERRUPT => Some(Kind::UserInterrupt),
        ARB_CHECK => Some(Kind::ArbCheck),
        ARB_ON_OFF => Some(Kind::ArbOnOff),
        BATCH_BUFFER_END => Some(Kind::BatchEnd),
        SEMAPHORE_WAIT => Some(semaphore(words)),
        STORE_DATA_IMM => Some(store(words)),
        LOAD_REGISTER_IMM => Some(load_registers(words)),
        STORE_REGISTER_MEM => Some(store_register(words)),
        FLUSH_DW => Some(flush(words)),
        LOAD_REGISTER_MEM => Some(load_register(words)),
        LOAD_REGISTER_REG => Some(move_register(words)),
        COPY_MEM_MEM => Some(copy_memory(words)),
        BATCH_BUFFER_START => Some(batch_start(words)),
        _ => blit_kind(header, words),
    }
}

/// The fields of a command of a listed length. None where a rule on another dword than the header
/// isn't kept.
#[tactic(auto, unfolding(crate::specs::Table::kind_of))]
pub(crate) fn kind_of(words: &[u32]) -> Option<Kind>
    requires { length words.now ≤ 65 }
    ensures value { result ≡ kind_of words.now }
    ensures form { IfSome result (IsKindOf words.now) }
{
    kind_by(dword(words, 0), words)
}
