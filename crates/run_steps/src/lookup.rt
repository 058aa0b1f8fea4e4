// Lookups in truth tables of any width: those that are no gates.

ghost use Rattle.std.specs.Prelude.{◌≡◌, length};
ghost use Rattle.run_steps.specs.Plans.{looked_up};
ghost use Rattle.run_steps.specs.Records.{LookupFits, plain_lookup};

#[derive(Drop)]
pub struct Lookup {
    pub output: usize,
    pub reads: Vec<usize>,
    // The value for each choice of values of the slots that are read: they are the binary digits of its place, the
    // lowest digit first.
    pub truth: Vec<bool>,
}

// The value that a lookup gives to its output.
pub fn lookup_value(lookup: &Lookup, values: &[bool]) -> bool
    requires { LookupFits (length values.now) (plain_lookup lookup.now) }
    ensures { result ≡ looked_up lookup.now.reads.items lookup.now.truth.items values.now }
{
    let mut place = 0;
    let mut weight = 1;
    for slot in &lookup.reads {
        if values[*slot] {
            place += weight;
        }
        weight *= 2;
    }
    lookup.truth[place]
}
