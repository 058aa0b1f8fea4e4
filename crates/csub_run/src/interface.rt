// The interface of a program.

ghost use Rattle.std.specs.Prelude.{◌≡◌, [], filter, map, take, IfOk};
ghost use Rattle.base_types.specs.Names.{is_same_name};
ghost use Rattle.csub_text.specs.Grammar.{begins_input, begins_output};
ghost use Rattle.csub_run.specs.ProgramAnswers.{bare_name};

use base_types::{NoMemory, Text};
use csub_text::front_two;
use run_over_traces::Interface;
use std::alloc::Global;

/// The names of the inputs and outputs among the globals of a program, without their signs; no relations. Its only
/// error is out of memory.
pub fn globals_interface(alloc: Global, globals: &[Text]) -> Result<Interface, NoMemory>
    ensures given { IfOk result (λ i. i.given.items ≡ map bare_name (filter begins_input globals.now)) }
    ensures outgoing { IfOk result (λ i. i.outgoing.items ≡ map bare_name (filter begins_output globals.now)) }
    ensures relations { IfOk result (λ i. i.relations.items ≡ []) }
{
    Ok(Interface {
        given: bare_names(alloc, globals, b"I_")?,
        outgoing: bare_names(alloc, globals, b"O_")?,
        relations: Vec::new(alloc),
    })
}

// The names with this sign, without it.
fn bare_names(alloc: Global, names: &[Text], sign: &[u8]) -> Result<Vec<Text>, NoMemory>
    ensures { IfOk result
        (λ bare. bare.items ≡ map bare_name (filter (λ n. is_same_name (take 2 n) sign.now) names.now)) }
{
    let mut bare = Vec::new(alloc);
    for name in names {
        if front_two(name.bytes()) == sign {
            bare.push(Text::from_bytes(alloc, bare_name(name.bytes()))?)?;
        }
    }
    Ok(bare)
}

// The bytes of a name after the first two.
fn bare_name(name: &[u8]) -> &[u8]
    ensures { result.now ≡ bare_name name.now }
{
    if name.len() < 2 { b"" } else { &name[2..] }
}
