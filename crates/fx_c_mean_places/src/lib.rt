//! Where the objects of a run of the source stand in the machine's memory, as a definition.
//!
//! A global and a literal stand where the configuration places them. A parameter or a local stands in the frame of
//! its call, whose place is given by what the callers that wait take of its stack. So it is known of an access that
//! a run of the source ends with, which address the machine refuses.
#![tactic(auto)]
