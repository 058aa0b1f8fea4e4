// The first fault of a text that must be run, whatever its language.

ghost use Rattle.std.specs.Prelude.{◌≡◌};
ghost use Rattle.cec_commands.specs.declared.text_faults.TextFault.TheVariants.{Blif as of_blif, C as of_c};
ghost use Rattle.cec_commands.specs.declared.text_faults.TextFault.TheVariants.{Guard as of_guarded};
ghost use Rattle.cec_commands.specs.declared.text_faults.TextFault.TheVariants.{Verilog as of_verilog};

use blif_read::BlifFault;
use csub_guard_read::GuardedFault;
use csub_read::CFault;
use thiserror::Error;
use vlog_read::VlogFault;

/// The first fault of a text that must be run, by its language.
#[derive(Debug, Drop, Error)]
pub enum TextFault {
    /// Of a BLIF text.
    #[error(transparent)]
    Blif(BlifFault),
    /// Of a text of the C subset.
    #[error(transparent)]
    C(CFault),
    /// Of a guarded text.
    #[error(transparent)]
    Guard(GuardedFault),
    /// Of a text of structural Verilog.
    #[error(transparent)]
    Verilog(VlogFault),
}

impl From<BlifFault> for TextFault {
    ghost from_gives = { λ fault told. told ≡ of_blif fault };

    fn from(fault: BlifFault) -> TextFault {
        TextFault::Blif(fault)
    }
}

impl From<CFault> for TextFault {
    ghost from_gives = { λ fault told. told ≡ of_c fault };

    fn from(fault: CFault) -> TextFault {
        TextFault::C(fault)
    }
}

impl From<GuardedFault> for TextFault {
    ghost from_gives = { λ fault told. told ≡ of_guarded fault };

    fn from(fault: GuardedFault) -> TextFault {
        TextFault::Guard(fault)
    }
}

impl From<VlogFault> for TextFault {
    ghost from_gives = { λ fault told. told ≡ of_verilog fault };

    fn from(fault: VlogFault) -> TextFault {
        TextFault::Verilog(fault)
    }
}
