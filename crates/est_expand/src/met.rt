// What a walk has met.

ghost use Rattle.std.specs.Prelude.{◌≡◌, ◌+◌, ◌≤◌, ◌++◌, length, map, IfOk, OnOk};
ghost use Rattle.est_ast.specs.Views.{delay_of};
ghost use Rattle.est_expand.specs.Walks.{beginning, meet_statement, meet_signals, meet_added};
ghost use Rattle.est_expand.specs.Flattening.{meet_delay};

use crate::refusal::ExpandFault;
use base_types::{Limits, NoMemory, SignalInfo, Text};
use est_ast::Delay;
use std::alloc::Global;

/// What a walk has met: statements, signals by their numbers, and signals that counts will add.
#[derive(Drop)]
pub struct Met {
    pub statements: u64,
    pub signals: Vec<SignalInfo>,
    pub added: u64,
    ghost few: { length signals.items + added ≤ 4096 },
}

impl Met {
    ghost use Rattle.est_expand.specs.Views.{met_of, Walks};

    /// Nothing.
    pub fn nothing(alloc: Global) -> Met
        ensures { met_of result ≡ beginning }
    {
        Met {
            statements: 0,
            signals: Vec::new(alloc),
            added: 0,
        }
    }

    /// One more statement.
    pub fn meet_statement(&mut self) -> Result<(), ExpandFault>
        ensures { Walks (λ _. tt) result self.old self.new meet_statement }
    {
        if self.statements >= Limits::STATEMENTS {
            return Err(ExpandFault::TooManyStatements);
        }
        self.statements += 1;
        Ok(())
    }

    /// New signals of these names, and the number of the first.
    #[inline(never)]
    pub fn meet_signals(&mut self, alloc: Global, names: &[&[u8]]) -> Result<u32, ExpandFault>
        ensures walks { Walks (λ first. first) result self.old self.new
            (meet_signals (map (λ name. name.now) names.now)) }
        ensures few { IfOk result (λ first. first + length names.now ≤ 4096) }
    {
        let first = self.signals.len();
        let room = Limits::SIGNALS - self.added - first as u64;
        if names.len() as u64 > room {
            return Err(ExpandFault::TooManySignals);
        }
        push_signals(alloc, &mut self.signals, names)?;
        Ok(first as u32)
    }

    /// The signal that an abortion by this delay will need, where it is a count of 2 or more.
    pub fn meet_delay(&mut self, delay: &Delay) -> Result<(), ExpandFault>
        ensures { Walks (λ _. tt) result self.old self.new (meet_delay (delay_of delay.now)) }
    {
        match delay {
            Delay::Plain(_) => Ok(()),
            Delay::Immediate(_) => Ok(()),
            Delay::Count(count, _, _) => {
                if *count > 1 {
                    self.meet_added()
                } else {
                    Ok(())
                }
            }
        }
    }

    // One more signal that a count will add.
    fn meet_added(&mut self) -> Result<(), ExpandFault>
        ensures { Walks (λ _. tt) result self.old self.new meet_added }
    {
        if self.signals.len() as u64 + self.added >= Limits::SIGNALS {
            return Err(ExpandFault::TooManySignals);
        }
        self.added += 1;
        Ok(())
    }
}

// Puts signals after the others.
fn push_signals(
    alloc: Global,
    signals: &mut Vec<SignalInfo>,
    names: &[&[u8]],
) -> Result<(), NoMemory>
    ensures names { OnOk result (map (λ s. s.name) signals.new.items
        ≡ map (λ s. s.name) signals.old.items ++ map (λ name. name.now) names.now) }
    // At most one signal is added for each name, also if memory runs out.
    ensures few { length signals.new.items ≤ length signals.old.items + length names.now }
{
    for name in names {
        let name = Text::from_bytes(alloc, name)?;
        signals.push(SignalInfo { name })?;
    }
    Ok(())
}
