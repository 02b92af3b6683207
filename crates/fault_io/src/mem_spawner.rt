ghost use Rattle.std.specs.Prelude.{◌≡◌, ◌⊎◌, ◌↔◌, ℕ, ◌+◌, ◌∷◌, [], All, Contains, IfOk, IsErr, OnErr, Some};
ghost use Rattle.fault_io.specs.Causes.{HasCause, one_more};
ghost use Rattle.fault_io.specs.InMemory.{HasNoFault};
ghost use Rattle.fault_io.specs.Links.{CountsStart};

use crate::calls::Calls;
use crate::link::Spawner;
use crate::mem_link::MemLink;
use crate::traits::Failed;
use std::marker::Model;

/// A spawner in memory, which gives links in memory. Contracts see the links that are left, how many
/// children were started, the number of the next call, the numbers of the calls that are to fail, and
/// the count of faults. Calls are numbered from 0; that number and the count of faults stand still at
/// 2^64 - 1.
pub struct MemSpawner {
    // The next one is the last here.
    links: Vec<MemLink>,
    all: usize,
    calls: Calls,
}

impl Drop for MemSpawner {
    fn drop(self) {
        let Self {
            links: _,
            all: _,
            calls: _,
        } = self;
    }
}

impl Model for MemSpawner {
    ghost use Rattle.std.specs.Prelude.{◌≤◌, ◌-◌, All, reverse, vec_len};
    ghost use Rattle.fault_io.specs.InMemory.{SpawnerInMemory, HasNoFault};

    ghost Value = { SpawnerInMemory };

    ghost view = { λ s. record {
      links = reverse s.links.items;
      started = s.all - vec_len s.links;
      next_call = s.calls.next;
      failing = s.calls.failing.items;
      faults = s.calls.faults;
    } };

    ghost invariant = { λ s. (vec_len s.links ≤ s.all) × All HasNoFault s.links.items };
}

impl MemSpawner {
    /// A spawner that gives these links, in order, whose calls with the numbers in `failing` fail. Takes
    /// no memory.
    pub fn new(links: Vec<MemLink>, failing: Vec<u64>) -> MemSpawner
        requires { All HasNoFault links.items }
        ensures { result ≡ record {
          links = links.items;
          started = 0;
          next_call = 0;
          failing = failing.items;
          faults = 0;
        } }
    {
        let mut links = links;
        links.reverse();
        let all = links.len();
        MemSpawner {
            links,
            all,
            calls: Calls::new(failing),
        }
    }
}

impl Spawner for MemSpawner {
    type Link = MemLink;

    ghost started = { λ s. Some s.started };

    ghost faults = { λ s. s.faults };

    /// Gives the next link, whatever the stage is. A call that finds none left fails, counted. Takes no
    /// memory.
    fn start(&mut self, stage: u8) -> Result<MemLink, Failed>
        // As every spawner.
        ensures fresh { IfOk result (λ link. (link.faults ≡ 0) × (◌≡◌ {A = ℕ} 0 0)) }
        ensures count { CountsStart (Some self.old.started) (Some self.new.started) result }
        ensures cause { HasCause self.old.faults self.new.faults result }

        // The listed calls fail, and a call without a link, and no other.
        ensures fails { IsErr result ↔ (Contains self.old.failing self.old.next_call ⊎ (self.old.links ≡ [])) }
        ensures after_failure { OnErr result (self.new ≡ record self.old {
          next_call = one_more self.old.next_call;
          faults = one_more self.old.faults;
        }) }
        ensures given { IfOk result (λ link. self.old.links ≡ link ∷ self.new.links) }
        ensures otherwise { IfOk result (λ _. self.new ≡ record self.old {
          links = self.new.links;
          started = self.old.started + 1;
          next_call = one_more self.old.next_call;
        }) }
    {
        self.calls.begin()?;
        match self.links.pop() {
            None => Err(self.calls.fail()),
            Some(link) => Ok(link),
        }
    }
}
