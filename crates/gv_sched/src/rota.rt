ghost use Rattle.std.specs.Prelude.{◌≡◌, ◌<◌, ◌≤◌, length};
ghost use Rattle.gv_sched.specs.Rota.{first_owners, owner_of, next_owner, IsNextOwner, switched};

use gv_types::{EngineId, GuestId};
use std::marker::Model;

/// The owner of each of the four engines: the guest whose turns the engine takes.
#[derive(Drop)]
pub struct Rota {
    guests: u8,
    owners: [u8; 4],
}

impl Model for Rota {
    ghost use Rattle.gv_sched.specs.Rota.{Owners, AreOwners};

    ghost Value = { Owners };

    ghost view = { λ s. record {
      guests = s.guests;
      owners = s.owners;
    } };

    ghost invariant = { λ s. AreOwners (record {
      guests = s.guests;
      owners = s.owners;
    }) };
}

impl Rota {
    /// The rota of so many guests. Guest 0 owns every engine.
    pub fn new(guests: u8) -> Rota
        requires some { 1 ≤ guests }
        requires few { guests ≤ 8 }
        ensures { result ≡ first_owners guests }
    {
        Rota {
            guests,
            owners: [0; 4],
        }
    }

    /// The guest that owns the engine.
    pub fn owner(&self, engine: EngineId) -> GuestId
        requires { engine.0 < 4 }
        ensures owner { result.0 ≡ owner_of self.now engine.0 }
        ensures there { result.0 < self.now.guests }
    {
        GuestId(self.owners[engine.0 as usize])
    }

    /// Gives the engine to the first guest after its owner, in cyclic order, that has work, and
    /// answers the new owner. Where no other guest has work the owner stays. `has_work` tells of
    /// each guest whether it has an element at work or a list on the engine.
    pub fn switch(&mut self, engine: EngineId, has_work: &[bool]) -> GuestId
        requires engine { engine.0 < 4 }
        requires each_guest { length has_work.now ≡ self.old.guests }
        ensures owner { result.0 ≡ next_owner has_work.now (owner_of self.old engine.0) }
        ensures first { IsNextOwner has_work.now (owner_of self.old engine.0) result.0 }
        ensures there { result.0 < self.new.guests }
        ensures after { self.new ≡ switched self.old engine.0 has_work.now }
    {
        let owner = next_owner(has_work, self.owners[engine.0 as usize]);
        self.owners[engine.0 as usize] = owner;
        GuestId(owner)
    }
}

fn next_owner(has_work: &[bool], owner: u8) -> u8
    requires there { owner < length has_work.now }
    requires few { length has_work.now ≤ 8 }
    ensures next { result ≡ next_owner has_work.now owner }
    ensures first { IsNextOwner has_work.now owner result }
    ensures there { result < length has_work.now }
{
    let before = owner as usize;
    let mut others = has_work
        .iter()
        .skip(before + 1)
        .chain(has_work.iter().take(before));
    match others.position(|work| *work) {
        Some(between) => ((before + 1 + between) % has_work.len()) as u8,
        None => owner,
    }
}

#[cfg(test)]
mod tests {
    use crate::Rota;
    use gv_types::{EngineId, GuestId};
    use std::test::Fail;

    #[test]
    fn engines_go_round(rt: HostRuntime) -> Result<(), Fail> {
        let mut rota = Rota::new(3);
        let engine = EngineId(1);
        assert_eq!(rt; rota.owner(engine), GuestId(0));
        assert_eq!(rt; rota.switch(engine, &[true, false, true]), GuestId(2));
        assert_eq!(rt; rota.owner(engine), GuestId(2));
        assert_eq!(rt; rota.switch(engine, &[false, true, true]), GuestId(1));
        assert_eq!(rt; rota.switch(engine, &[true, true, false]), GuestId(0));
        assert_eq!(rt; rota.switch(engine, &[true, false, false]), GuestId(0));
        assert_eq!(rt; rota.switch(engine, &[false, false, false]), GuestId(0));
        assert_eq!(rt; rota.switch(EngineId(3), &[false, true, true]), GuestId(1));
        assert_eq!(rt; rota.owner(engine), GuestId(0));
        Ok(())
    }
}
