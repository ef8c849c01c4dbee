//! What holds of a system between its calls, whatever it is given.

ghost use Rattle.gptp_system.specs.Laws.{AgainLaw, CountersLaw, FollowsLaw, GoesOnLaw, HeldLaw, IdentityLaw, InTimeLaw, KeepsLaw, LaterLaw, LeavesLaw, MeasuresLaw};
ghost use Rattle.gptp_system.specs.Laws.{PlacedLaw, RanOutLaw, ReachLaw, ReactsLaw, RestLaw, RunsOnLaw, SelectsLaw, SendsLaw, ShownLaw, SpanLaw, StartLaw, StartedLaw, StartsInTimeLaw, TimeKeptLaw, TraceLaw, WindowLaw};

/// A new system, all ports of which are disabled, is at rest and its own root.
pub fn starts_at_rest()
    ensures { StartLaw }
{}

/// After every step the system is at rest: it follows the best vector that its ports hold, and selecting again would
/// change nothing and send nothing.
pub fn stays_at_rest()
    ensures rest { RestLaw }
    ensures selects { SelectsLaw }
    ensures again { AgainLaw }
{}

/// After every step a port is disabled exactly where it isn't asCapable.
pub fn shows_capability()
    ensures { ShownLaw }
{}

/// After every step what the ports hold as received qualified there, so that it can be selected from.
pub fn holds_what_qualified()
    ensures held { HeldLaw }
    ensures placed { PlacedLaw }
{}

/// No step changes the parameters, the local clock, whether the system goes on with the time that it read, the
/// clockIdentity, how many ports there are, their announce intervals or over how many exchanges they measure a rate;
/// none but a change of priority1 changes the identity.
pub fn keeps_its_setup()
    ensures keeps { KeepsLaw }
    ensures identity { IdentityLaw }
    ensures windows { WindowLaw }
{}

/// Every step is the answer to what it does to the ports: each port keeps what it then holds or becomes Master, and a
/// port announces at once where it is newly Master or its root or steps changed. Each Announce that is sent is that of
/// a Master port, with the chosen root and the own steps, and names the interval of that port.
pub fn answers_touches()
    ensures { ReactsLaw }
{}

/// A system at rest is its own root, or follows what its Slave port received: that root one step further, and in its
/// trace the path that it came over.
pub fn follows_its_choice()
    ensures follows { FollowsLaw }
    ensures trace { TraceLaw }
{}

/// What a step makes of the measuring of a port follows from that port alone: what it measured, when it asks and when
/// it answers. A step about one port changes no other.
pub fn measures_port_by_port()
    ensures { MeasuresLaw }
{}

/// A port sends one request when its link comes up and when its request timer expires, and its two answers when that
/// timer expires. The Sync and the Relay timer tell time. Everything else can only announce.
pub fn sends_what_its_input_asks()
    ensures { SendsLaw }
{}

/// After every step each timer is due within its own span from now: Announce within an announce interval, Pdelay, Sync,
/// Respond, Relay and Lapse within theirs; and what is held was received no later than now. So it is with a new system,
/// and each timer that runs is due at most 160 s from now.
pub fn stays_in_time()
    ensures start { StartsInTimeLaw }
    ensures steps { InTimeLaw }
    ensures later { LaterLaw }
    ensures system { RunsOnLaw }
    ensures span { SpanLaw }
{}

/// Every timer that a step starts is due after now; so is a timer that ran out, where it runs at all.
pub fn starts_timers_ahead()
    ensures started { StartedLaw }
    ensures ran_out { RanOutLaw }
{}

/// Every step sends within its reach: nothing, two messages at most at one port, or two at most at each port. It leaves
/// the timers that its input can't change due when they were.
pub fn stays_within_reach()
    ensures sends { ReachLaw }
    ensures timers { LeavesLaw }
{}

/// The sequence numbers of every port go on by one for each Announce and each Sync that a step sends there, and by no
/// other message. They wrap at 65536.
pub fn counts_what_it_sends()
    ensures { CountersLaw }
{}

/// Every step leaves what the system reads time by and its base, but for a receipt at its Slave port, and for the
/// expiry of its Sync timer: then one that leads takes over, where it didn't yet. As long as it has no Slave port it
/// goes on to tell the same then.
pub fn goes_on_with_time()
    ensures kept { TimeKeptLaw }
    ensures tells { GoesOnLaw }
{}
