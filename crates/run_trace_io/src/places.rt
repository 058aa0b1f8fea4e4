// The places of inputs by their names.

ghost use Rattle.std.specs.Prelude.{◌≡◌, position, IsTrue};
ghost use Rattle.base_types.specs.Names.{is_same_name};
ghost use Rattle.base_types.specs.Distinct.{all_differ};

use base_types::{NoMemory, Text};
use std::alloc::Global;
use std::collections::HashMap;

// The place of an input by the hash of its name. Of inputs whose names have one hash only one stands
// here, so what is found is compared with the name.
pub type Places = HashMap<u64, u32>;

pub fn hashed_places(alloc: Global, inputs: &[Text]) -> Result<Places, NoMemory> {
    let mut places = HashMap::new(alloc);
    for (place, input) in inputs.iter().enumerate() {
        if place <= u32::MAX as usize {
            places.insert(hash_of(input.bytes()), place as u32)?;
        }
    }
    Ok(places)
}

// The place of the input with this name.
pub fn place_of(places: &Places, inputs: &[Text], name: &[u8]) -> Option<usize>
    requires { IsTrue (all_differ is_same_name inputs.now) }
    ensures { result ≡ position (is_same_name name.now) inputs.now }
{
    if let Some(place) = places.get(&hash_of(name)) {
        let place = *place as usize;
        if place < inputs.len() && name == inputs[place].bytes() {
            return Some(place);
        }
    }
    first_place(inputs, name)
}

// The same without a table: no input has the name, or its hash is that of another name too.
fn first_place(inputs: &[Text], name: &[u8]) -> Option<usize>
    ensures { result ≡ position (is_same_name name.now) inputs.now }
{
    for (place, input) in inputs.iter().enumerate() {
        if name == input.bytes() {
            return Some(place);
        }
    }
    None
}

// The hash of Fowler, Noll and Vo (FNV-1a, 64 bits).
fn hash_of(name: &[u8]) -> u64 {
    let mut hash = 0xcbf2_9ce4_8422_2325u64;
    for byte in name {
        hash = (hash ^ u64::from(*byte)).wrapping_mul(0x0000_0100_0000_01b3);
    }
    hash
}
