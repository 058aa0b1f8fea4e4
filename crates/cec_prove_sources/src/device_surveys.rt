// Surveys of all outputs of a netlist whose inputs have relations.

ghost use Rattle.std.specs.Prelude.{◌≡◌, ◌&&◌, map, option_map, IfOk};
ghost use Rattle.base_types.specs.Relations.{relation_of};
ghost use Rattle.net_ir.specs.Netlists.{output_names};
ghost use Rattle.net_ir.specs.Runs.{netlist_of};
ghost use Rattle.cec_prove_sources.specs.DeviceSurveys.{IsDeviceSurvey, IsDeviceSurveyText};
ghost use Rattle.cec_prove_sources.specs.NetDevices.{RelatesInputs, device_of};
ghost use Rattle.cec_prove_sources.specs.Verdicts.{HasPlaceIfAny};

use crate::places::output_place;
use crate::presences::{Signal, push_signal};
use crate::questions::Survey;
use base_types::{InputRelation, NoMemory};
use net_ir::Net;
use net_opt::optimize;
use std::alloc::Global;

// The lines of outputs, and whether it is known when each of them is true.
#[derive(Drop)]
struct Lines {
    text: Vec<u8>,
    whole: bool,
}

// The lines of all outputs, where the one that is assumed has this place.
fn survey_lines(
    alloc: Global,
    relations: &[InputRelation],
    net: &Net,
    assumed: Option<&[u8]>,
    place: Option<usize>,
    effort: u64,
) -> Result<Lines, NoMemory>
    requires fits { RelatesInputs (map relation_of relations.now) (netlist_of net.now) }
    requires assumes { HasPlaceIfAny (output_names (netlist_of net.now)) (option_map (λ n. n.now) assumed) place }
    ensures { IfOk result (λ l. IsDeviceSurveyText (device_of relations.now net.now)
        (option_map (λ n. n.now) assumed.entry) (output_names (netlist_of net.now)) l.text.items l.whole) }
{
    let mut text = Vec::new(alloc);
    let mut whole = true;
    for (k, output) in net.outputs.iter().enumerate() {
        let signal = Signal {
            name: output.name.bytes(),
            place: k,
            assumed,
            assumed_place: place,
        };
        let known = push_signal(alloc, &mut text, relations, net, signal, effort)?;
        whole = both(whole, known);
    }
    Ok(Lines { text, whole })
}

// Whether both are so.
fn both(left: bool, right: bool) -> bool
    ensures { result ≡ (left && right) }
{
    left && right
}

// The survey where the output that is assumed has this place.
fn placed_survey(
    alloc: Global,
    relations: &[InputRelation],
    net: &Net,
    assumed: Option<&[u8]>,
    place: Option<usize>,
    effort: u64,
) -> Result<Survey, NoMemory>
    requires fits { RelatesInputs (map relation_of relations.now) (netlist_of net.now) }
    requires assumes { HasPlaceIfAny (output_names (netlist_of net.now)) (option_map (λ n. n.now) assumed) place }
    ensures { IfOk result (IsDeviceSurvey (device_of relations.now net.now) (option_map (λ n. n.now) assumed.entry)) }
{
    let lines = survey_lines(alloc, relations, net, assumed, place, effort)?;
    if lines.whole {
        Ok(Survey::Whole(lines.text))
    } else {
        Ok(Survey::Partly(lines.text))
    }
}

/// The survey of all outputs of a netlist whose inputs have these relations. Each of an output's two questions has the
/// effort. The error is out of memory.
pub(crate) fn device_survey(
    alloc: Global,
    relations: &[InputRelation],
    net: &Net,
    assumed: Option<&[u8]>,
    effort: u64,
) -> Result<Survey, NoMemory>
    requires fits { RelatesInputs (map relation_of relations.now) (netlist_of net.now) }
    ensures { IfOk result (IsDeviceSurvey (device_of relations.now net.now) (option_map (λ n. n.now) assumed.entry)) }
{
    let Some(name) = assumed else {
        return placed_survey(alloc, relations, net, None, None, effort);
    };
    match output_place(net, name) {
        None => Ok(Survey::NoAssumed),
        Some(at) => placed_survey(alloc, relations, net, Some(name), Some(at), effort),
    }
}

/// What `device_survey` says, by the optimized netlist: a survey of a netlist whose inputs have these relations.
pub fn small_survey(
    alloc: Global,
    relations: &[InputRelation],
    net: &Net,
    assumed: Option<&[u8]>,
    effort: u64,
) -> Result<Survey, NoMemory>
    requires fits { RelatesInputs (map relation_of relations.now) (netlist_of net.now) }
    ensures { IfOk result (IsDeviceSurvey (device_of relations.now net.now) (option_map (λ n. n.now) assumed.entry)) }
{
    let small = optimize(alloc, net)?;
    device_survey(alloc, relations, &small, assumed, effort)
}
