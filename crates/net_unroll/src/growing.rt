// Gates under way.

ghost use Rattle.std.specs.Prelude.{◌≡◌, ◌+◌, ◌<◌, ◌^◌, length, IfErr, IfOk};
ghost use Rattle.net_unroll.specs.declared.growing.GrowFault.TheVariants.{NoMemory as lacks_memory};
ghost use Rattle.net_unroll.specs.Copies.{IsFull, Pushed, next_number};

use base_types::{NetId, NoMemory};
use net_ir::{Gate, Op};
use std::alloc::{AllocError, AllocFailed};
use thiserror::Error;

/// Why no gate can be added.
#[derive(Debug, Drop, Error)]
pub enum GrowFault {
    /// There would be more than 2^32 nets.
    #[error("too many nets")]
    TooManyNets,
    #[error("out of memory")]
    NoMemory,
}

impl From<AllocError> for GrowFault {
    ghost from_gives = { λ _ fault. fault ≡ lacks_memory };

    fn from(_error: AllocError) -> GrowFault {
        GrowFault::NoMemory
    }
}

impl<T: Drop> From<AllocFailed<T>> for GrowFault {
    ghost from_gives = { λ _ fault. fault ≡ lacks_memory };

    fn from(_error: AllocFailed<T>) -> GrowFault {
        GrowFault::NoMemory
    }
}

impl From<NoMemory> for GrowFault {
    ghost from_gives = { λ _ fault. fault ≡ lacks_memory };

    fn from(_error: NoMemory) -> GrowFault {
        GrowFault::NoMemory
    }
}

/// Gates under way, and how many nets come before them.
#[derive(Drop)]
pub struct Growing {
    pub first: u32,
    pub list: Vec<Gate>,
}

impl Growing {
    /// One more gate, which carries no wire, and its net.
    pub fn push(&mut self, op: Op) -> Result<NetId, GrowFault>
        ensures pushed { IfOk result (λ n. Pushed self.old self.new op) }
        ensures number { IfOk result (λ n. n.0 ≡ next_number self.old) }
        ensures room { IfOk result (λ n. next_number self.old < 2 ^ 32) }
        ensures full { IfErr result (λ fault. IsFull fault (next_number self.old) 1) }
    {
        let first = self.first;
        let count = self.list.len();
        if count >= (u32::MAX - first) as usize {
            return Err(GrowFault::TooManyNets);
        }
        let number = first + count as u32;
        let gate = Gate { op, wire: None };
        self.list.push(gate)?;
        Ok(NetId(number))
    }
}
