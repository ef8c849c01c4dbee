//! What a port makes of a message.

/// What a port makes of a response or a follow-up that it hears.
#[derive(Clone, Copy, Debug, PartialEq, Eq, Hash)]
pub enum Step {
    /// The open request, if any, doesn't wait for it. It changes nothing.
    Ignored,
    /// It is the response to the open request.
    Recorded,
    /// It is the follow-up of that response, and completes the exchange.
    Exchange {
        /// Whether the port became capable by it, or stopped being so.
        changed: bool,
    },
}
