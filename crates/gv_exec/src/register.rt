ghost use Rattle.std.specs.Prelude.{◌≡◌, ◌<◌, IfSome, Some, drop};
ghost use Rattle.gv_cmd.specs.Table.{pair_count};
ghost use Rattle.gv_types.specs.Engines.{register_base};
ghost use Rattle.gv_cmd.specs.Effect.{general_of, engine_register_read, engine_register_set, engine_registers_set};

use crate::Space;
use gv_cmd::Command;

/// Where an engine's registers begin.
fn base_of(engine: u8) -> u32
    requires { engine < 4 }
    ensures { result ≡ register_base engine }
{
    match engine {
        0 => 0x2000,
        1 => 0x2_2000,
        2 => 0x1_2000,
        _ => 0x1_a000,
    }
}

/// The number of a general register of this engine, counted by dwords, or None where the register
/// isn't general.
pub(crate) fn general_of(engine: u8, register: u32) -> Option<u8>
    requires { engine < 4 }
    ensures value { result ≡ general_of engine register }
    ensures small { IfSome result (λ n. n < 32) }
{
    let first = base_of(engine) + 0x600;
    if register < first || register >= first + 0x80 {
        return None;
    }
    Some(((register - first) / 4) as u8)
}

/// A register that isn't general reads 0.
pub(crate) fn register_read<S: Space>(space: &S, engine: u8, register: u32) -> u32
    requires { engine < 4 }
    ensures { result ≡ engine_register_read S.operations engine (S.state space.now) register }
{
    match general_of(engine, register) {
        Some(n) => space.general(n),
        None => 0,
    }
}

/// A register that isn't general isn't changed.
pub(crate) fn register_set<S: Space>(space: &mut S, engine: u8, register: u32, value: u32)
    requires { engine < 4 }
    ensures left { S.state space.new ≡ engine_register_set S.operations engine (S.state space.old) register value }
    ensures loans { S.loans space.new ≡ S.loans space.old }
{
    if let Some(n) = general_of(engine, register) {
        space.set_general(n, value);
    }
}

/// Sets the register of each pair in order.
pub(crate) fn registers_set<S: Space>(space: &mut S, engine: u8, command: &Command, pairs: u8)
    requires engine { engine < 4 }
    requires pairs { pairs ≡ pair_count command.now }
    ensures left { S.state space.new ≡ engine_registers_set S.operations engine (S.state space.old) (drop 1 command.now) }
    ensures loans { S.loans space.new ≡ S.loans space.old }
{
    for n in 0..pairs {
        let (register, value) = command.pair(usize::from(n));
        register_set(space, engine, register, value);
    }
}
