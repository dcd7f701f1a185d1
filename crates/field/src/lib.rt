// What all files share: the one table of tags and body lengths, the frame of a field, and writing a field.
#![tactic(auto)]

mod frames;
mod heads;
mod tags;
mod writes;

pub use frames::{Due, Frame, frame_at};
pub use heads::byte_at;
pub use tags::{BodyLength, File, length_of};
pub use writes::{field_length, put_field};
