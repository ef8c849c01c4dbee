//! The messages of gPTP as octets.
//!
//! IEEE 802.1AS-2020 (10.5, 10.6, 11.4) sends the messages of IEEE 1588-2019 (clause 13) in Ethernet
//! frames. This crate reads all six, in place and without taking memory, the path trace of an Announce
//! lent out of the frame, and writes them.
//!
//! The grammar is a relation between a whole frame and the fields of a message. [`decode`] answers
//! with a message exactly where the frame reads as it, and refuses exactly where a test fails, by the
//! first that does. What a lent path answers are the numbers that stand in the frame. [`encode`]
//! appends the one spelling of a message, which reads as that message and as nothing else.
#![tactic(auto)]

mod announce;
mod follow_up;
mod frame;
mod head;
mod laws;
mod message;
mod message_type;
mod path;
mod peer_delay;
mod refused;
mod timestamp;
mod tlv;

pub use announce::{AnnounceBody, AnnounceView, encode_announce, encode_announce_behind};
pub use follow_up::FollowUp;
pub use head::Head;
pub use laws::what_is_written_reads_back;
pub use message::{Message, decode, encode};
pub use path::PathView;
pub use peer_delay::{PdelayResp, PdelayRespFollowUp};
pub use refused::Refused;
