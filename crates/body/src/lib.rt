// Bodies that hold a model's numbers, as they are read: class numbers or elements of one byte each, and masks of two.
// Fields 41 and 42 of an answer have them, and so have the bytes of a model that is handed in.
#![tactic(auto)]

mod bodies;

pub use bodies::{MASK_BYTES, masks_in, numbers_in};
