// Numbers of wires, looked up by name.

ghost use Rattle.std.specs.Prelude.{◌≡◌, option_map};
ghost use Rattle.grc_graph.specs.Neighbouring.{names_in};
ghost use Rattle.grc_dep.specs.Names.{wire_named, number_of, Apart};

use crate::names::NamedWire;
use base_types::WireId;
use grc_graph::Neighbours;

// The tables of a graph, in which each wire has one number.
#[derive(Clone, Copy)]
pub struct Lookups<'a> {
    pub tables: &'a Neighbours<'a>,
    ghost apart: { Apart (names_in tables.now) },
}

impl Lookups<'_> {
    // The number of a wire; None where the graph does not have it.
    pub fn find(&self, wire: NamedWire) -> Option<WireId>
        ensures { option_map (λ w. w.0) result ≡ number_of (names_in self.now.tables.now) (wire_named wire) }
    {
        match wire {
            NamedWire::Out(signal) => self.tables.out(signal),
            NamedWire::Go(x) => self.tables.find_go(x.path.0, x.layer),
            NamedWire::Status(x) => self.tables.find_status(x.path.0, x.layer),
            NamedWire::End(x, code) => self.tables.find_end(x.path.0, x.layer, code),
        }
    }
}
