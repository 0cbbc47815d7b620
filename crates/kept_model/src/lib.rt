//! A volume and a run of it as the abstract model of the prefix theorem has them: nodes by number, batches as the regions
//! that they touch, what is held as an image, messages, the client as the lines leave it, and which nodes count. `specs/`
//! has the definitions; there is no code.
#![tactic(auto)]
