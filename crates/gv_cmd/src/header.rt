ghost use Rattle.std.specs.Prelude.{◌≡◌, ◌<◌, ◌≤◌, ◌^◌, IfSome, Option};
ghost use Rattle.gv_types.specs.Bits.{has_bit};
ghost use Rattle.gv_cmd.specs.Bits.{bits};
ghost use Rattle.gv_cmd.specs.Table.{exactly, always, semaphore_length, store_length, load_registers_length, flush_length, pipe_length, untiled, blit_rows, length_in, length_of};
ghost use Rattle.gv_cmd.specs.Kind.{IsLength};

use crate::MAX_COMMAND_DWORDS;

/// Bits 31..16 of the header of PIPE_CONTROL, the one listed command of the 3D pipeline.
pub(crate) const PIPE_CONTROL: u32 = 0x7a00;

// Bits 31..23 of the headers of memory-interface commands.
pub(crate) const NOOP: u32 = 0x00;

pub(crate) const USER_INTERRUPT: u32 = 0x02;

pub(crate) const ARB_CHECK: u32 = 0x05;

pub(crate) const ARB_ON_OFF: u32 = 0x08;

pub(crate) const BATCH_BUFFER_END: u32 = 0x0a;

pub(crate) const SEMAPHORE_WAIT: u32 = 0x1c;

pub(crate) const STORE_DATA_IMM: u32 = 0x20;

pub(crate) const LOAD_REGISTER_IMM: u32 = 0x22;

pub(crate) const STORE_REGISTER_MEM: u32 = 0x24;

pub(crate) const FLUSH_DW: u32 = 0x26;

pub(crate) const LOAD_REGISTER_MEM: u32 = 0x29;

pub(crate) const LOAD_REGISTER_REG: u32 = 0x2a;

pub(crate) const COPY_MEM_MEM: u32 = 0x2e;

pub(crate) const BATCH_BUFFER_START: u32 = 0x31;

// Bits 31..22 of the headers of blits.
pub(crate) const XY_COLOR_BLT: u32 = 0x150;

pub(crate) const XY_SRC_COPY_BLT: u32 = 0x153;

pub(crate) fn bit(dword: u32, n: u8) -> bool
    requires { n < 32 }
    ensures { result ≡ has_bit dword n }
{
    (dword >> n) & 1 == 1
}

/// What names PIPE_CONTROL.
pub(crate) fn pipe_opcode(header: u32) -> u32
    ensures { result ≡ bits header 31 16 }
{
    header >> 16
}

/// What names a memory-interface command.
pub(crate) fn interface_opcode(header: u32) -> u32
    ensures { result ≡ bits header 31 23 }
{
    header >> 23
}

/// What names a blit.
pub(crate) fn blit_opcode(header: u32) -> u32
    ensures { result ≡ bits header 31 22 }
{
    header >> 22
}

/// Bits 7..0 of a header, which for most rows are the length minus 2.
fn length_field(header: u32) -> u32
    ensures value { result ≡ bits header 7 0 }
    ensures small { result < 2 ^ 8 }
{
    header & 0xff
}

/// A row of `dwords` dwords, where the length field has `dwords` minus 2.
fn exactly(dwords: usize, field: u32) -> Option<usize>
    requires { field < 2 ^ 16 }
    ensures { result ≡ exactly dwords field }
{
    (field as usize + 2 == dwords).then_some(dwords)
}

/// A row whose length field is bits 7..0.
fn always(dwords: usize, header: u32) -> Option<usize>
    ensures { result ≡ always dwords header }
{
    exactly(dwords, length_field(header))
}

fn semaphore_length(header: u32) -> Option<usize>
    ensures { result ≡ semaphore_length header }
{
    if bit(header, 15) && (header >> 12) & 7 < 6 {
        always(4, header)
    } else {
        None
    }
}

fn store_length(header: u32) -> Option<usize>
    ensures { result ≡ store_length header }
{
    exactly(if bit(header, 21) { 5 } else { 4 }, header & 0x3ff)
}

fn load_registers_length(header: u32) -> Option<usize>
    ensures { result ≡ load_registers_length header }
{
    let dwords = length_field(header) as usize + 2;
    (bit(header, 0) && dwords <= MAX_COMMAND_DWORDS).then_some(dwords)
}

fn flush_length(header: u32) -> Option<usize>
    ensures { result ≡ flush_length header }
{
    if (header >> 14) & 3 >= 2 || bit(header, 21) {
        return None;
    }
    match header & 0x3f {
        2 => Some(4),
        3 => Some(5),
        _ => None,
    }
}

/// A blit of so many dwords. Bits 15 and 11 mean tiling, and no row is tiled.
fn untiled(dwords: usize, header: u32) -> Option<usize>
    ensures { result ≡ untiled dwords header }
{
    if bit(header, 15) || bit(header, 11) {
        return None;
    }
    always(dwords, header)
}

fn pipe_length(header: u32) -> Option<usize>
    ensures { result ≡ pipe_length header }
{
    exactly(6, header & 0xffff)
}

fn blit_length(header: u32) -> Option<usize>
    ensures { result ≡ length_in blit_rows header }
{
    match blit_opcode(header) {
        XY_COLOR_BLT => untiled(7, header),
        XY_SRC_COPY_BLT => untiled(10, header),
        _ => None,
    }
}

/// The length in dwords that a header names. None where no row of the command table has such a
/// header.
pub fn length(header: u32) -> Option<usize>
    ensures value { result ≡ length_of header }
    ensures form { IfSome result IsLength }
{
    if pipe_opcode(header) == PIPE_CONTROL {
        return pipe_length(header);
    }
    match interface_opcode(header) {
        NOOP | USER_INTERRUPT | ARB_CHECK | ARB_ON_OFF | BATCH_BUFFER_END => Some(1),
        SEMAPHORE_WAIT => semaphore_length(header),
        STORE_DATA_IMM => store_length(header),
        LOAD_REGISTER_IMM => load_registers_length(header),
        STORE_REGISTER_MEM => always(4, header),
        FLUSH_DW => flush_length(header),
        LOAD_REGISTER_MEM => always(4, header),
        LOAD_REGISTER_REG => always(3, header),
        COPY_MEM_MEM => always(5, header),
        BATCH_BUFFER_START => always(3, header),
        _ => blit_length(header),
    }
}
