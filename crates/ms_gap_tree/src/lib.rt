//! Rooms under keys, in a tree whose nodes lie in an arena: the least key with so much room is found in as many steps as the
//! tree has levels. It stands on no other crate. The definitions to read are `room_at`, `IsLowest` and `IsLast` in
//! `specs/Rooms.antt`, and `Tree.antt` for the tree: the item with the most room stands at the root, each other one in the
//! half of the range that its key lies in.
#![tactic(auto)]

mod leftmost;
mod nearest;
mod node;
mod removal;
mod rooms;
mod slots;
mod steps;
mod tree;

pub use node::{Item, Link, Node};
pub use rooms::Rooms;
pub use slots::spare;
pub use steps::Steps;
pub use tree::half;
