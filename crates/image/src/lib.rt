// The image of a program in slots: what its operands are worth, how its statements encode, and the bytes that they become.
#![tactic(auto)]

mod checking; // the encoding pass
mod data; // the items of data
mod codes; // the bytes of an instruction
mod worth; // what operands are worth
mod writing; // the image

pub use checking::{encode_all, encodes_at};
pub use codes::encode_at;
pub use worth::{argument_worth, own_worth, target_worth};
pub use writing::{image_length, write_image};
