//! What the tests of several crates begin with: identities, ports, traces, one frame of each message, octet by octet,
//! and documents.
#![tactic(auto)]

mod announces;
mod documents;
mod timing;

pub use announces::{FIRST_ANNOUNCE, body, frame, head, identity, port, trace};
pub use documents::TWO;
pub use timing::{FOLLOW_UP, REQUEST, RESPONSE, RESPONSE_FOLLOW_UP, SYNC};
