ghost use Rattle.std.specs.Prelude.{◌≡◌, ◌<◌, ◌≤◌, ◌↔◌, true, false, length, IfOk, slice_set, ◌-◌};
ghost use Rattle.gv_track.specs.Roles.{no_roles, levels_of, levels_in, bits_of, HasNoRole, with_role, ChangesRole};

use gv_types::OutOfMemory;
use std::alloc::Global;
use std::marker::Model;

/// The roles of a guest's frames: the levels, 1 to 4, at which each is a live table.
#[derive(Drop)]
pub struct Track {
    roles: Vec<u8>,
}

impl Model for Track {
    ghost use Rattle.std.specs.Prelude.{◌<◌, ◌^◌, All, List, Bool, map, length};
    ghost use Rattle.gv_track.specs.Roles.{levels_in};

    ghost Value = { List (List Bool) };

    ghost view = { λ s. map levels_in s.roles.items };

    ghost invariant = { λ s. (All (λ bits. bits < 16) s.roles.items) × (length s.roles.items < 2 ^ 32) };
}

impl Track {
    /// So many frames, none with a role.
    pub fn new(alloc: Global, frames: u32) -> Result<Track, OutOfMemory>
        ensures { IfOk result (λ track. track ≡ no_roles frames) }
    {
        Ok(Track {
            roles: vec![in alloc; 0; frames as usize]?,
        })
    }

    /// How many frames there are.
    pub fn frames(&self) -> u32
        ensures { result ≡ length self.now }
    {
        self.roles.len() as u32
    }

    /// The levels at which the frame is live: bit level - 1 is set for each.
    pub fn roles(&self, frame: u32) -> u8
        requires { frame < length self.now }
        ensures bits { result ≡ bits_of (levels_of self.now frame) }
        ensures four { result < 16 }
        ensures none { (result ≡ 0) ↔ HasNoRole self.now frame }
    {
        self.roles[frame as usize]
    }

    /// The frame becomes live at the level.
    pub fn add(&mut self, frame: u32, level: u8)
        requires frame { frame < length self.old }
        requires low { 1 ≤ level }
        requires high { level ≤ 4 }
        ensures after { self.new ≡ with_role self.old frame level true }
        ensures changes { ChangesRole self.old self.new frame level true }
    {
        let roles = &mut self.roles[frame as usize];
        *roles = with_level(*roles, level);
    }

    /// The frame is no longer live at the level.
    pub fn remove(&mut self, frame: u32, level: u8)
        requires frame { frame < length self.old }
        requires low { 1 ≤ level }
        requires high { level ≤ 4 }
        ensures after { self.new ≡ with_role self.old frame level false }
        ensures changes { ChangesRole self.old self.new frame level false }
    {
        let roles = &mut self.roles[frame as usize];
        *roles = without_level(*roles, level);
    }
}

fn with_level(roles: u8, level: u8) -> u8
    requires few { roles < 16 }
    requires low { 1 ≤ level }
    requires high { level ≤ 4 }
    ensures levels { levels_in result ≡ slice_set (levels_in roles) (level - 1) true }
    ensures few { result < 16 }
{
    roles | 1 << (level - 1)
}

fn without_level(roles: u8, level: u8) -> u8
    requires few { roles < 16 }
    requires low { 1 ≤ level }
    requires high { level ≤ 4 }
    ensures levels { levels_in result ≡ slice_set (levels_in roles) (level - 1) false }
    ensures few { result < 16 }
{
    roles & !(1 << (level - 1))
}

#[cfg(test)]
mod tests {
    use crate::Track;
    use std::test::Fail;

    #[test]
    fn roles_come_and_go(rt: HostRuntime) -> Result<(), Fail> {
        let mut track = Track::new(rt.alloc(), 3)?;
        assert_eq!(rt; track.frames(), 3);
        assert_eq!(rt; track.roles(1), 0);
        track.add(1, 1);
        track.add(1, 3);
        track.add(2, 4);
        assert_eq!(rt; track.roles(1), 0b0101);
        assert_eq!(rt; track.roles(2), 0b1000);
        track.remove(1, 1);
        assert_eq!(rt; track.roles(1), 0b0100);
        assert_eq!(rt; track.roles(0), 0);
        Ok(())
    }
}
