//! The laws on solutions: a graph's solution is the walk of the program, in each state and event, and its next state is
//! what the walk keeps.
#![tactic(auto)]

mod laws;

pub use laws::{
    codes_are_shown, equations_are_the_walk, next_state_is_kept, regions_rest,
    regions_rest_in_runs, solutions_are_walks, walks_keep_states,
};
