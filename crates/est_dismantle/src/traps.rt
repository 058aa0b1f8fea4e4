// The traps around a statement, and the codes of exits.

ghost use Rattle.std.specs.Prelude.{◌≡◌, ◌+◌, ◌≤◌, length};
ghost use Rattle.base_types.specs.declared.bounds.TheConstants.Limits.{TRAPS};
ghost use Rattle.est_dismantle.specs.Kernels.{exit_code};
ghost use Rattle.est_dismantle.specs.TrapLists.{traps_of};

/// The traps around a statement, the nearest first: those of the source, and new ones that an expansion puts
/// there.
#[derive(Clone, Copy)]
pub(crate) enum Traps<'a> {
    Whole,
    Source(&'a Traps<'a>),
    New(&'a Traps<'a>),
}

/// The code of an exit that leaves the source trap with this many source traps between.
#[tactic(auto, using(crate::proofs::Exits::exit_rows))]
pub(crate) fn code(traps: &Traps, between: u32) -> u8
    requires { length (traps_of traps.now) ≤ TRAPS }
    ensures code { result ≡ exit_code (traps_of traps.now) between }
    ensures within { result ≤ 2 + length (traps_of traps.now) }
{
    match traps {
        Traps::Whole => 2,
        Traps::Source(around) => {
            if between == 0 {
                2
            } else {
                code(around, between - 1) + 1
            }
        }
        Traps::New(around) => code(around, between) + 1,
    }
}
