// Statements with their codes, as edges need them.

ghost use Rattle.std.specs.Prelude.{◌≡◌};
ghost use Rattle.base_types.specs.CodeSet.{members};
ghost use Rattle.est_kernel.specs.Plain.{term_of};
ghost use Rattle.grc_graph.specs.CodeTables.{HasCodesAt};
ghost use Rattle.grc_dep.specs.PartCodes.{HaveCodes};

use base_types::{CodeSet, PathId};
use est_kernel::{Codes, Kernel};
use grc_graph::{Instance, Layer, has_some_code, resumed_codes, started_codes};

// A statement with its number and its codes.
#[derive(Clone, Copy)]
pub struct Part<'a> {
    pub body: &'a Kernel,
    pub path: PathId,
    pub started: CodeSet,
    pub resumed: CodeSet,
    ghost codes: { HaveCodes started resumed (term_of body.now) },
}

// The statement with this number.
pub fn part_at<'a>(codes: &Codes, body: &'a Kernel, path: u32) -> Part<'a>
    requires { HasCodesAt codes.now (term_of body.now) path }
    ensures body { term_of result.body.now ≡ term_of body.now }
    ensures path { result.path.0 ≡ path }
{
    Part {
        body,
        path: PathId(path),
        started: started_codes(codes, path),
        resumed: resumed_codes(codes, path),
    }
}

impl Part<'_> {
    ghost use Rattle.std.specs.Prelude.{◌≡◌, ◌&&◌};
    ghost use Rattle.est_kernel.specs.StaticCodes.{has_code, resumed_codes};
    ghost use Rattle.grc_graph.specs.Layers.{can_pass};
    ghost use Rattle.grc_graph.specs.PlainInstances.{layer_of};
    ghost use Rattle.grc_graph.specs.Wires.{instance_codes};
    ghost use Rattle.grc_graph.specs.Edges.{part_runs};

    // Its instance in a layer.
    pub fn in_layer(&self, layer: Layer) -> Instance
        ensures path { result.path ≡ self.now.path }
        ensures layer { result.layer ≡ layer }
    {
        Instance {
            path: self.path,
            layer,
        }
    }

    // The codes of its instance in a layer.
    pub fn codes_in(&self, layer: Layer) -> CodeSet
        ensures { members result ≡ instance_codes (term_of self.now.body.now) (layer_of layer) }
    {
        match layer {
            Layer::Resumed => self.resumed,
            Layer::Started(_) => self.started,
        }
    }

    // Whether it is live in a layer in which its whole is.
    pub fn runs_in(&self, layer: Layer) -> bool
        ensures { result ≡ part_runs (term_of self.now.body.now) (layer_of layer) }
    {
        match layer {
            Layer::Resumed => has_some_code(self.resumed),
            Layer::Started(_) => true,
        }
    }

    // Whether it can terminate in a layer.
    pub fn passes_in(&self, layer: Layer) -> bool
        ensures { result ≡ instance_codes (term_of self.now.body.now) (layer_of layer) 0 }
    {
        self.codes_in(layer).has(0)
    }

    // Whether it can pause in a layer.
    pub fn pauses_in(&self, layer: Layer) -> bool
        ensures { result ≡ instance_codes (term_of self.now.body.now) (layer_of layer) 1 }
    {
        self.codes_in(layer).has(1)
    }

    // Whether it can ever terminate.
    pub fn can_pass(&self) -> bool
        ensures { result ≡ can_pass (term_of self.now.body.now) }
    {
        self.started.has(0) || self.resumed.has(0)
    }

    // Whether it is resumed as the second part of a sequence after another.
    pub fn resumes_after(&self, first: &Part) -> bool
        ensures { result
            ≡ (can_pass (term_of first.now.body.now) && has_code (resumed_codes (term_of self.now.body.now))) }
    {
        first.can_pass() && has_some_code(self.resumed)
    }
}
