// The decoded job: a struct over a lent space that denotes a job, the parts of the space, and a method for each thing that is read of it.
// Whoever works on cells reads the image and never the text again. Crates line_reader and decoding lay it from a job text.
#![tactic(auto)]

pub mod image;
pub mod job_lines;
pub mod place;
pub mod space;
