ghost use Rattle.std.specs.Prelude.{◌≡◌, ◌+◌, ◌*◌, ◌<◌, ◌≤◌, ◌++◌, ℕ, List, IfOk, IfSome, length, take, slice_index, Some};
ghost use Rattle.gv_cmd.specs.Bits.{register};
ghost use Rattle.gv_cmd.specs.Padded.{padded};
ghost use Rattle.gv_cmd.specs.Table.{pair_count, kind_of};
ghost use Rattle.gv_cmd.specs.Kind.{IsKindOf};
ghost use Rattle.gv_cmd.specs.Command.{IsCommand, IsFront, decoded, shape_of};

use crate::Kind;
use crate::header::length;
use crate::rows::{dword, kind_of, register};
use std::error::Error;
use std::fmt;
use std::marker::Model;

/// How many dwords the longest command has: LOAD_REGISTER_IMM with 32 pairs.
pub const MAX_COMMAND_DWORDS: usize = 65;

/// No row of the command table fits the front of the dwords.
#[derive(Clone, Copy, Debug, PartialEq, Eq)]
pub struct Unlisted;

impl fmt::Display for Unlisted {
    fn fmt<W: fmt::Write>(&self, f: &mut fmt::Formatter<W>) -> fmt::Result {
        write!(f, "the command is unlisted")
    }
}

impl Error for Unlisted {}

/// A listed command, seen as the list of its dwords, the header first. LOAD_REGISTER_IMM with 32
/// pairs has the most, 65.
#[derive(Clone, Copy, Debug, PartialEq, Eq)]
pub struct Command {
    words: [u32; MAX_COMMAND_DWORDS],
    count: usize,
}

impl Model for Command {
    ghost use Rattle.std.specs.Prelude.{List, ℕ, take, length};

    ghost Value = { List ℕ };

    ghost use Rattle.gv_cmd.specs.Padded.{padded};
    ghost use Rattle.gv_cmd.specs.Kept.{IsKept, kept-inverse};

    ghost view = { λ c. take c.count c.words };

    ghost invariant = { IsKept };

    ghost inverse = { λ ws. record { words = padded ws; count = length ws } };

    ghost inverse_ok = { kept-inverse };
}

/// The dwords, then zeros.
#[tactic(auto, unfolding(crate::specs::Padded::padded))]
fn padded(words: &[u32]) -> [u32; MAX_COMMAND_DWORDS]
    requires { length words.now ≤ 65 }
    ensures { result ≡ padded words.now }
{
    let mut all = [0; MAX_COMMAND_DWORDS];
    for (n, word) in words.iter().enumerate() {
        all[n] = *word;
    }
    all
}

/// The command at the front of a list of dwords, and its length in dwords. It depends on the
/// command's own dwords alone.
///
/// `Unlisted` where no row of the command table fits the front, which includes a list that is too
/// short.
pub fn decode(words: &[u32]) -> Result<(Command, usize), Unlisted>
    ensures value { result ≡ decoded words.now }
    ensures front { IfOk result (IsFront words.now) }
    ensures own { IfOk result (λ r. (rest : List ℕ) → decoded (r.0 ++ rest) ≡ result) }
{
    let Some(count) = length(dword(words, 0)) else {
        return Err(Unlisted);
    };
    if count > words.len() {
        return Err(Unlisted);
    }
    let front = &words[..count];
    if kind_of(front).is_none() {
        return Err(Unlisted);
    }
    Ok((Command::new(front), count))
}

impl Command {
    /// The command with these dwords.
    fn new(words: &[u32]) -> Self
        requires command { IsCommand words.now }
        requires few { length words.now ≤ 65 }
        ensures { result ≡ words.now }
    {
        Command {
            words: padded(words),
            count: words.len(),
        }
    }

    /// The dwords, the header first.
    pub fn words(&self) -> &[u32]
        ensures value { result.now ≡ self.now }
        ensures command { IsCommand self.now }
        ensures few { length self.now ≤ 65 }
    {
        &self.words[..self.count]
    }

    /// The command with its fields.
    pub fn kind(&self) -> Kind
        ensures value { kind_of self.now ≡ Some result }
        ensures form { IsKindOf self.now result }
    {
        match kind_of(self.words()) {
            Some(kind) => kind,
            None => unreachable!(),
        }
    }

    /// The pair with this number of a LOAD_REGISTER_IMM: the register's byte offset and its value.
    pub fn pair(&self, n: usize) -> (u32, u32)
        requires { n < pair_count self.now }
        ensures register { result.0 ≡ register self.now (1 + 2 * n) }
        ensures value { result.1 ≡ slice_index self.now (2 + 2 * n) }
    {
        let words = self.words();
        (register(words, 1 + 2 * n), words[2 + 2 * n])
    }

    /// The command itself, but for the start of a fetched batch, whose two address dwords are 0.
    pub fn shape(&self) -> Command
        ensures { result ≡ shape_of self.now }
    {
        match self.kind() {
            Kind::BatchStart { live: false, .. } => Command::new(&[self.words()[0], 0, 0]),
            _ => *self,
        }
    }
}

#[cfg(test)]
mod tests;
