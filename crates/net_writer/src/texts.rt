// Forms of text in which nets are written.

use base_types::NoMemory;
use net_ir::Net;
use std::alloc::Global;

/// A form of text in which nets are written, part by part. The parts are in sections: a section has a part for each
/// latch, input, output or gate of a net, or one alone.
///
/// `sections` are the sections in order, and `parts_in` are the parts of a section; `written` is the text itself, and
/// `means` says that a text means a net. A value is what is made of a net before its first part, and `is_of` says of
/// which.
pub trait NetText {
    ghost use Rattle.std.specs.Prelude.{◌≡◌, ◌<◌, ℕ, List, [], ◌++◌, length, flat_map, slice_index_or, IfOk, OnOk};
    ghost use Rattle.net_ir.specs.Netlists.{Netlist};
    ghost use Rattle.net_ir.specs.Runs.{netlist_of};
    ghost use Rattle.net_writer.specs.Parts.{joined};

    type Section: Copy + 'static;

    ghost sections: { List Self.Section };

    ghost parts_in: { Netlist → Self.Section → List (List ℕ) };

    ghost written: { Netlist → List ℕ };

    ghost means: { List ℕ → Netlist → Type 0 };

    ghost is_of: { Self → Netlist → Type 0 };

    /// What is made of a net before its first part. Running out of memory is the only error, here and below.
    fn of(alloc: Global, net: &Net) -> Result<Self, NoMemory>
        ensures { IfOk result (λ form. is_of form (netlist_of net.now)) };

    /// The sections in order.
    fn sections() -> &'static [Self::Section]
        ensures { result.now ≡ sections };

    /// How many parts a section has.
    fn count(net: &Net, section: Self::Section) -> usize
        ensures { result ≡ length (parts_in (netlist_of net.now) section) };

    /// Puts the part of a section with this number after a text.
    fn put_in(
        &self,
        text: &mut Vec<u8>,
        net: &Net,
        section: Self::Section,
        k: usize,
    ) -> Result<(), NoMemory>
        requires of { is_of self.now (netlist_of net.now) }
        requires within { k < length (parts_in (netlist_of net.now) section) }
        ensures { OnOk result
            (text.new.items ≡ text.old.items ++ slice_index_or (parts_in (netlist_of net.now) section) k []) };

    /// Looks at a net, of which a proof then knows that its parts are its text, and that the text means it.
    fn look_at(net: &Net)
        ensures whole { joined (flat_map (parts_in (netlist_of net.now)) sections) ≡ written (netlist_of net.now) }
        ensures means { means (written (netlist_of net.now)) (netlist_of net.now) };
}
