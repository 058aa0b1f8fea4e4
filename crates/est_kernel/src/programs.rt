// Kernel programs.

use crate::statements::Kernel;
use base_types::{InputRelation, SignalInfo, Text};

/// A kernel program. Signals below `inputs` are the inputs, the next `both` are those that are input
/// and output, the next `outputs` are the outputs, each kind in declared order, and then come the
/// local ones. An event gives the inputs and the signals that are input and output; what goes out
/// are the signals that are input and output and the outputs.
#[derive(Drop)]
pub struct KernelProgram {
    /// The main module's name.
    pub name: Text,
    /// The signals by number.
    pub signals: Vec<SignalInfo>,
    /// The number of inputs.
    pub inputs: u32,
    /// The number of signals that are input and output.
    pub both: u32,
    /// The number of outputs.
    pub outputs: u32,
    /// What the environment keeps of the given signals in every instant.
    pub relations: Vec<InputRelation>,
    /// What the program does.
    pub body: Kernel,
}
