// Why a net has no text with a reset.

ghost use Rattle.std.specs.Prelude.{◌≡◌, option_map, find, IfOk, MatchOption};
ghost use Rattle.std.specs.List.{list_all};
ghost use Rattle.base_types.specs.Names.{is_name, is_name_byte};
ghost use Rattle.net_ir.specs.NameLists.{first_again};
ghost use Rattle.net_ir.specs.Runs.{netlist_of};
ghost use Rattle.net_expressions.specs.NameTables.{name_told};
ghost use Rattle.vlog_reset.specs.Names.{is_reserved};
ghost use Rattle.vlog_reset.specs.NameChecks.{AreFit, IsNamesFault};
ghost use Rattle.vlog_reset.specs.Faults.{own_names, IsResettable, IsResetFault};
ghost use Rattle.vlog_reset.specs.Views.{options_of};

use crate::ends::name_of;
use crate::fault::ResetFault;
use crate::names::{interface_names, known_names, name_again_among, own_texts};
use crate::options::ResetOptions;
use crate::words::is_reserved;
use base_types::{NoMemory, Text, is_letter, is_name_byte};
use net_ir::Net;
use std::alloc::Global;

/// The first cause why a net has no text with a reset, if there is one. Running out of memory is the only error.
///
/// Example: a net with an input `begin` has no such text, unless the names of signals get prefixes.
pub fn reset_fault(
    alloc: Global,
    net: &Net,
    options: ResetOptions<'_>,
) -> Result<Option<ResetFault>, NoMemory>
    ensures { IfOk result (λ fault. MatchOption fault (IsResettable (options_of options.entry) (netlist_of net.now))
        (IsResetFault (options_of options.entry) (netlist_of net.now))) }
{
    if !is_name(name_of(net, options)) {
        return Ok(Some(ResetFault::NoModule));
    }
    if !is_name(options.reset) {
        return Ok(Some(ResetFault::NoReset));
    }
    let names = interface_names(alloc, net, options)?;
    names_fault(alloc, net, &names)
}

// Whether this is a letter, followed by letters, digits and `_`.
fn is_name(name: &[u8]) -> bool
    ensures { result ≡ is_name name.now }
{
    match name {
        [] => false,
        [first, rest @ ..] => is_letter(*first) && are_name_bytes(rest),
    }
}

fn are_name_bytes(bytes: &[u8]) -> bool
    ensures { result ≡ list_all is_name_byte bytes.now }
{
    bytes.iter().all(|byte| is_name_byte(*byte))
}

// The first fault of the names of an interface.
fn names_fault(alloc: Global, net: &Net, names: &[Text]) -> Result<Option<ResetFault>, NoMemory>
    ensures { IfOk result (λ fault. MatchOption fault (AreFit (own_names (netlist_of net.now)) names.now)
        (IsNamesFault (own_names (netlist_of net.now)) names.now)) }
{
    if let Some(word) = reserved_name(names) {
        let word = Text::from_bytes(alloc, word)?;
        return Ok(Some(ResetFault::Reserved(word)));
    }
    if let Some(name) = name_again(alloc, net, names)? {
        let name = Text::from_bytes(alloc, name)?;
        return Ok(Some(ResetFault::Twice(name)));
    }
    Ok(None)
}

// The first name that is a word of Verilog.
fn reserved_name(names: &[Text]) -> Option<&[u8]>
    ensures { option_map (λ w. w.now) result ≡ find is_reserved names.now }
{
    for name in names {
        if is_reserved(name.bytes()) {
            return Some(name.bytes());
        }
    }
    None
}

// The first name that is one of the module's own, or stands a second time.
fn name_again<'a>(alloc: Global, net: &Net, names: &'a [Text]) -> Result<Option<&'a [u8]>, NoMemory>
    ensures { IfOk result (λ again. name_told again ≡ first_again (own_names (netlist_of net.now)) names.now) }
{
    let own = own_texts(alloc, net)?;
    let known = known_names(alloc, &own)?;
    name_again_among(alloc, &known, names)
}
