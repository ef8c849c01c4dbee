//! What a system answers to a frame.

use gptp_messages::Refused;

/// What became of a frame that a port heard.
#[derive(Clone, Copy, Debug, PartialEq, Eq, Hash)]
pub enum Answer {
    /// It is no message.
    Refused(Refused),
    /// An Announce, Sync or Follow_Up on a port that isn't asCapable.
    Disabled,
    /// It was used.
    Used,
    /// It was for nobody here, or came at the wrong time.
    Ignored,
    /// An Announce that is better than what the port held, and takes its place.
    Superior,
    /// An Announce of the port that was heard last, better or worse. It takes the place of what was heard.
    Repeated,
    /// An Announce that isn't better.
    Inferior,
    /// An Announce of this system.
    Own,
    /// An Announce whose stepsRemoved is 255 or more.
    Steps,
    /// An Announce that passed this system already.
    Loop,
    /// An Announce whose path has more than 255 clocks.
    Long,
}
