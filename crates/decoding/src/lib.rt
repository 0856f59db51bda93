// Decoding: from any bytes to the image of a job. The reader puts questions 1 to 8 and lays the lines of the text into the space that is lent as it
// reads them; from them is laid what is derived from the job that they say, which are each state's run of edges, the chains and the
// fragments. Every call on a table but fresh decodes once, and no byte of the text is read again for it.
#![tactic(auto)]

mod decode;
pub mod read;
