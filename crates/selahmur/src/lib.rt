// The eleven calls for programs in C, document 01's nine and document 02's rule and page: one exported function for each, over the job text, the
// lent table and the numbers of the call, for page a lent buffer too, or for rule over rule text and a lent buffer. All numbers of the answer
// (number, line, then the call's own, which are 0 where it is refused) are stored into an array that the caller lends; one that is too short takes
// as many as fit. Nothing is worked out here and nothing is required: any bytes and any numbers may be passed. `include/selahmur.h` declares the functions, and
// `rt lib` in this crate's folder writes the archive, out/libselahmur.a.
#![tactic(auto)]

pub mod message;
pub mod page;
pub mod reading;
pub mod rule;
pub mod work;
