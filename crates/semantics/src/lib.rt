//! What the engine means, as definitions over plain values, and the laws about them.
//! A law is a public function with an empty body, whose contract is the law.
#![tactic(auto)]

pub mod answers;
pub mod convergence;
pub mod exchange;
pub mod expressions;
pub mod glances;
pub mod handling;
pub mod legality;
pub mod list_order;
pub mod lives;
pub mod one_world;
pub mod peer_answers;
pub mod replica;
pub mod vectors;
pub mod world;
pub mod world_exchange;
