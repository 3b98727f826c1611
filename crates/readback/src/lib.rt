// C-21: an image read back as a listing.
#![tactic(auto)]

pub mod entry;
mod frames; // the frame of what stands at an address
mod walks; // over the image, first to count and then to write
