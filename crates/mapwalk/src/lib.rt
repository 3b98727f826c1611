// The walk of an image by a map, without a listing: the images of an input and of its output walk alike. No code.
#![tactic(auto)]
