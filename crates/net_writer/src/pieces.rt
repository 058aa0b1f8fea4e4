// Texts, piece by piece.

ghost use Rattle.std.specs.Prelude.{◌≡◌, ◌⊎◌, ◌<◌, ◌≤◌, [], ◌++◌, length, take, drop};
ghost use Rattle.std.specs.Prelude.{IfOk, IfErr, OnOk, MatchOption};

use crate::places::Places;
use base_types::{Limits, NoMemory};
use std::alloc::Global;
use std::marker::Model;

/// A text, piece by piece. A contract sees the text that is still to come.
#[derive(Drop)]
pub struct Pieces<P: Places + Drop> {
    places: P,
    // What is left of what stood before the next place.
    left: Vec<u8>,
    place: u128,
}

impl<P: Places + Drop> Model for Pieces<P> {
    ghost use Rattle.std.specs.Prelude.{List, ℕ, ◌++◌};

    ghost Value = { List ℕ };

    ghost view = { λ p. p.left.items ++ P.text_from p.places p.place };

    ghost invariant = { λ p. P.is_sound p.places };
}

impl<P: Places + Drop> Pieces<P> {
    /// The whole text. It takes no memory.
    pub fn new(alloc: Global, places: P) -> Pieces<P>
        requires { P.is_sound places }
        ensures { result ≡ P.text_from places 0 }
    {
        Pieces {
            places,
            left: Vec::new(alloc),
            place: 0,
        }
    }

    /// The next piece: the first 65,536 bytes of what is to come, or all of it where that is less; None
    /// exactly at the end of the text. After out of memory, which is its only error, all that was to come
    /// is to come still, so the next call gives the piece that was due.
    pub fn next(&mut self, alloc: Global) -> Result<Option<Vec<u8>>, NoMemory>
        ensures piece { IfOk result (λ answer. MatchOption answer (self.old ≡ [])
            (λ piece. (0 < length piece.items) × (piece.items ≡ take Limits.PIECE_BYTES self.old))) }
        ensures rest { OnOk result (self.new ≡ drop Limits.PIECE_BYTES self.old) }
        ensures stays { IfErr result (λ _. self.new ≡ self.old) }
    {
        let (mut text, place) = filled(alloc, &self.places, &self.left, self.place)?;
        if text.is_empty() {
            return Ok(None);
        }
        self.left = cut(&mut text)?;
        self.place = place;
        Ok(Some(text))
    }

    /// All pieces, one after another. The time and the memory that it takes are linear in the length of the text;
    /// out of memory is its only error.
    pub fn all(self, alloc: Global) -> Result<Vec<u8>, NoMemory>
        ensures { IfOk result (λ t. t.items ≡ self) }
    {
        let mut pieces = self;
        let mut text = Vec::new(alloc);
        while let Some(piece) = pieces.next(alloc)? {
            text.extend_from_slice(&piece)?;
        }
        Ok(text)
    }
}

// What is left and what stands at the places from this one on, at least as far as a piece goes or to the end of the
// text, and the place after it.
fn filled<P: Places>(
    alloc: Global,
    places: &P,
    left: &[u8],
    place: u128,
) -> Result<(Vec<u8>, u128), NoMemory>
    requires { P.is_sound places.now }
    ensures text { IfOk result (λ f. f.0.items ++ P.text_from places.now f.1
        ≡ left.now ++ P.text_from places.now place) }
    ensures full { IfOk result (λ f. (Limits.PIECE_BYTES ≤ length f.0.items) ⊎ (P.text_from places.now f.1 ≡ [])) }
{
    let mut text = Vec::from_slice(alloc, left)?;
    let mut at = place;
    'places: while text.len() < Limits::PIECE_BYTES {
        match places.put_place(&mut text, at)? {
            Some(next) => at = next,
            None => return Ok((text, at)),
        }
    }
    Ok((text, at))
}

// Cuts a text after its first piece; the answer is what stood there.
fn cut(text: &mut Vec<u8>) -> Result<Vec<u8>, NoMemory>
    ensures piece { OnOk result (text.new.items ≡ take Limits.PIECE_BYTES text.old.items) }
    ensures rest { IfOk result (λ rest. rest.items ≡ drop Limits.PIECE_BYTES text.old.items) }
{
    let end = Limits::PIECE_BYTES.min(text.len());
    Ok(text.split_off(end)?)
}
