// Running out of memory, as the cause of a refusal.

ghost use Rattle.std.specs.Prelude.{◌≡◌};
ghost use Rattle.cec_compile.specs.declared.refusal.Refusal.TheVariants.{NoMemory as lacks_memory};
ghost use Rattle.cec_cycles.specs.declared.findings.CycleRefusal.TheVariants.{Source as has_no_graph};

use crate::findings::CycleRefusal;
use base_types::NoMemory;
use cec_compile::Refusal;

impl From<NoMemory> for CycleRefusal {
    ghost from_gives = { λ _ refusal. refusal ≡ has_no_graph lacks_memory };

    fn from(_error: NoMemory) -> CycleRefusal {
        CycleRefusal::Source(Refusal::NoMemory)
    }
}
