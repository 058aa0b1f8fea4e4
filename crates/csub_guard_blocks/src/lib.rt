//! Which gates of a netlist belong to which head, and the text in which the gates of a head are in blocks.
#![tactic(auto)]

mod blocks;
mod owning;
mod pieces;

pub use owning::{Owner, owners};
pub use pieces::{BlockPieces, Blocks, block_pieces, write_blocks};
