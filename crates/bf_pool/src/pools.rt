//! Pools and their slots.
ghost use Rattle.std.specs.Prelude.{◌≡◌, ◌+◌, ◌-◌, ◌<◌, ◌≤◌, ◌↔◌, ℕ, length, IsOk, OnOk, OnErr, IfOk};
ghost use Rattle.bf_pool.specs.Slots.{size_of, occupied_of, HasOccupied};

use bf_plan::Plan;
use bf_value::OutOfMemory;
use std::alloc::Global;
use std::marker::Model;
use thiserror::Error;

/// The slots don't fit into the pool beside those that are occupied.
#[derive(Clone, Copy, Debug, PartialEq, Eq, Error)]
#[error("no room in the pool")]
pub struct NoRoom;

/// The pools of a plan, with how many slots of each are occupied: never more than it has.
#[derive(Debug, Drop)]
pub struct Pools {
    sizes: Vec<u32>,
    occupied: Vec<u32>,
}

impl Model for Pools {
    ghost use Rattle.bf_pool.specs.Slots.{Slots, AreWithin};

    ghost Value = { Slots };

    ghost view = { λ p. record { sizes = p.sizes.items; occupied = p.occupied.items } };

    ghost invariant = { λ p. AreWithin (record {
      sizes = p.sizes.items;
      occupied = p.occupied.items;
    }) };
}

impl Pools {
    /// The pools of a plan, with all slots free.
    pub fn new(alloc: Global, plan: &Plan) -> Result<Pools, OutOfMemory>
        ensures sizes { IfOk result (λ pools. pools.sizes ≡ plan.now.limits.pools) }
        ensures free { IfOk result (λ pools. (pool : ℕ) → occupied_of pools pool ≡ 0) }
    {
        let sizes = plan.limits().pools.as_slice().to_vec(alloc)?;
        let occupied = vec![in alloc; 0; sizes.len()]?;
        Ok(Pools { sizes, occupied })
    }

    /// How many slots a pool has.
    pub fn size(&self, pool: u32) -> u32
        requires { pool < length self.now.sizes }
        ensures { result ≡ size_of self.now pool }
    {
        self.sizes[pool as usize]
    }

    /// How many slots of a pool are occupied.
    pub fn occupied(&self, pool: u32) -> u32
        requires { pool < length self.now.sizes }
        ensures size { result ≡ occupied_of self.now pool }
        ensures within { occupied_of self.now pool ≤ size_of self.now pool }
    {
        self.occupied[pool as usize]
    }

    /// Takes `slots` slots of a pool. `NoRoom`, and nothing changes, where they don't fit beside those that are
    /// occupied.
    pub fn take(&mut self, pool: u32, slots: u32) -> Result<(), NoRoom>
        requires { pool < length self.old.sizes }
        ensures fits { IsOk result ↔ (occupied_of self.old pool + slots ≤ size_of self.old pool) }
        ensures ok { OnOk result (HasOccupied self.old pool
            (occupied_of self.old pool + slots) self.new) }
        ensures err { OnErr result (self.new ≡ self.old) }
    {
        let at = pool as usize;
        let occupied = self.occupied[at];
        if slots > self.sizes[at] - occupied {
            return Err(NoRoom);
        }
        self.occupied[at] = occupied + slots;
        Ok(())
    }

    /// Gives back `slots` slots of a pool, of those that were taken.
    pub fn give_back(&mut self, pool: u32, slots: u32)
        requires pool { pool < length self.old.sizes }
        requires held { slots ≤ occupied_of self.old pool }
        ensures { HasOccupied self.old pool (occupied_of self.old pool - slots) self.new }
    {
        self.occupied[pool as usize] -= slots;
    }
}
