//! What the command line may say, as data: the one place for names, ranges, defaults, and what help says.

/// How an argument is written.
#[derive(Clone, Copy)]
pub(crate) enum Form {
    /// `--name`.
    Flag,
    /// `--name N`, a number from the least to the most.
    Number(u64, u64),
    /// `--name WORD`.
    Word,
    /// `WORD`, which has to be given.
    Place,
}

/// How an argument is written, its default if it has one, and what help calls its value.
pub(crate) type Kind = (Form, &'static [&'static str], &'static str);

/// An argument of a command: its name, its kind, and what help says of it.
pub(crate) type Row = (&'static str, Kind, &'static str);

/// A command: its name, what help says of it in a line, and its arguments.
pub(crate) type CommandRow = (&'static str, &'static str, &'static [Row]);

/// The table.
#[rattlefmt::skip]
pub(crate) mod rows {
    use super::{CommandRow, Form, Kind, Row};
    use gptp_setup::LAST_MOMENT;

    const FLAG: Kind = (Form::Flag, &[], "");
    /// A time, or how far off one is.
    pub(crate) const NANOSECONDS: Kind = (Form::Number(0, LAST_MOMENT), &[], "NS");
    /// How many systems or roots.
    const MANY: Kind = (Form::Number(0, LAST_MOMENT), &[], "N");
    const PARTED: Kind = (Form::Number(1, 10_000), &["1"], "N");

    pub(crate) const RUN_UNTIL: Row = ("until", NANOSECONDS,
        "When the run ends, in ns; by default the time by which a calm network has settled");
    pub(crate) const TIMELINE_UNTIL: Row = ("until", NANOSECONDS,
        "When the run ends, in ns; by default some Syncs after the last event's stretch has settled");
    pub(crate) const MOMENT: Row = ("until", NANOSECONDS,
        "The time of the network that is meant, in ns; by default after all events");
    pub(crate) const SEED: Row = ("seed", (Form::Number(0, 4_294_967_295), &["1"], "N"),
        "The seed of delays, of losses and of the noise of time stamps");
    pub(crate) const FRAMES: Row = ("frames", FLAG, "Write a line for each frame");
    pub(crate) const CERTIFICATE: Row = ("certificate", FLAG, "Write what each system has chosen, as a certificate");
    pub(crate) const SUMMARY: Row = ("summary", FLAG, "Leave out events and changes");
    pub(crate) const OFFSETS: Row = ("offsets", FLAG,
        "Write a line for each receipt of time, with its offset and error in ns");
    pub(crate) const FILE: Row = ("file", (Form::Place, &[], "FILE"), "The file that holds the certificate");
    pub(crate) const WHERE: Row = ("where", FLAG, "Write where a certificate that isn't accepted first fails");
    pub(crate) const MAX_ERROR: Row = ("max-error", NANOSECONDS,
        "Say whether the last number of each system's line is at most this, in ns");
    pub(crate) const READS: Row = ("reads", NANOSECONDS,
        "Say too by how much what each system reads is off at most so long after a receipt of time, in ns");
    pub(crate) const ALWAYS: Row = ("always", FLAG,
        "Say too by how much it is off at most at every moment; none where 'sync_timeout' is 0");
    pub(crate) const CLOCK: Row = ("clock", (Form::Place, &[], "CLOCK"),
        "The clock of the system that is meant, 16 hexadecimal digits");
    pub(crate) const TIMES: Row = ("times", FLAG,
        "Say of each stretch how far off systems read time, how far apart, and when it last came from another source");
    pub(crate) const STRICT: Row = ("strict", FLAG, "End with status 1 where there is any line but on calm");
    pub(crate) const SEEDS: Row = ("seeds", (Form::Number(1, 1000), &["1"], "N"),
        "With how many seeds each case is tried; where nothing is lost it hardly matters");
    pub(crate) const MOMENTS: Row = ("moments", (Form::Number(1, 1000), &["8"], "N"),
        "At how many moments each case is tried, within an announce and a Sync interval");
    pub(crate) const AT: Row = ("at", NANOSECONDS,
        "The first moment, in ns; by default when the network rests behind the last event");
    pub(crate) const HOLD: Row = ("hold", (Form::Number(1, LAST_MOMENT), &[], "NS"),
        "How long a fault stays, and each run goes on behind it, in ns; by default until the network rests");
    pub(crate) const ONLY: Row = ("only", (Form::Word, &[], "KIND"),
        "Try nothing but 'links', 'systems' that hang, or 'power' that systems lose");
    pub(crate) const POWER: Row = ("power", FLAG,
        "Let each system also lose its power: its links go down, which its neighbours see");
    pub(crate) const DETECT: Row = ("detect", (Form::Number(1, LAST_MOMENT), &[], "NS"),
        "How long it takes until a broken link, or one at a system without power, is seen to be down, in ns");
    pub(crate) const PARTS: Row = ("parts", PARTED, "In how many parts the cases are dealt out, one after another");
    pub(crate) const PART: Row = ("part", PARTED, "The part that is tried");
    pub(crate) const PROGRESS: Row = ("progress", FLAG, "Write a line to standard error before each case");

    /// The arguments of `timeline`. Its limits, as those of `faults`, are read by the names that `Limit` has.
    const TIMELINE: &[Row] = &[
        TIMELINE_UNTIL, SEED, SUMMARY, OFFSETS,
        ("max-choice", NANOSECONDS, "Say whether behind each event the choice stands within this, in ns"),
        ("max-holdover", NANOSECONDS,
            "Say whether behind each event no system waits longer for time than this, in ns"),
        ("max-error", NANOSECONDS, "Say whether each receipt of time is off by at most this, in ns"),
        ("max-without", MANY, "Say whether where a stretch ends at most so many systems go without time"),
        ("max-roots", MANY, "Say whether at most so many roots are followed there by two systems or more"),
        ("max-alone", MANY, "Say whether at most so many systems follow a root there that no other does"),
        ("max-bound", NANOSECONDS,
            "Say whether behind each event the choice stands within this whatever the seed, in ns"),
        TIMES,
        ("max-time", NANOSECONDS, "Say whether what each system reads is always off by at most this, in ns"),
        ("max-apart", NANOSECONDS, "Say whether no two systems ever read further apart than this, in ns"),
        ("max-step", NANOSECONDS, "Say whether no system's time ever jumps by more than this, in ns"),
        ("max-first", NANOSECONDS,
            "Say whether in each stretch each system has its time within this, in ns"),
    ];

    /// The arguments of `faults`.
    const FAULTS: &[Row] = &[
        SEEDS, MOMENTS, AT, HOLD, ONLY, POWER, DETECT, PARTS, PART, PROGRESS,
        ("max-choice", NANOSECONDS, "Say whether the choice always stands within this, in ns"),
        ("max-holdover", NANOSECONDS, "Say whether no system ever waits longer for time than this, in ns"),
        ("max-error", NANOSECONDS, "Say whether each receipt of time is off by at most this, in ns"),
        ("max-without", MANY, "Say whether at most so many systems go without time in the end"),
        ("max-roots", MANY, "Say whether at most so many roots are followed then by two systems or more"),
        ("max-alone", MANY, "Say whether at most so many systems follow a root then that no other does"),
        ("max-cut", MANY, "Say whether no fault cuts more systems off than so many"),
        ("max-astray", MANY,
            "Say whether at most so many of the others are then without the time that most of them share"),
        ("max-bound", NANOSECONDS,
            "Say whether the choice always stands within this whatever the seed, in ns"),
        ("times", FLAG,
            "Say too how far off systems read time, how far apart, and when it last came from another source"),
        ("max-time", NANOSECONDS, "Say whether what each system reads is always off by at most this, in ns"),
        ("max-apart", NANOSECONDS, "Say whether no two systems ever read further apart than this, in ns"),
        ("max-step", NANOSECONDS, "Say whether no system's time ever jumps by more than this, in ns"),
        ("max-first", NANOSECONDS, "Say whether each system always has its time within this, in ns"),
    ];

    /// The commands, in the order of help.
    pub(crate) const COMMANDS: &[CommandRow] = &[
        ("compare", "Says of each line of two Announces which announces the better vector", &[]),
        ("run", "Runs the network of a document and says what each system follows",
            &[RUN_UNTIL, SEED, FRAMES, CERTIFICATE]),
        ("timeline", "Runs the network of a document and says what changes at which system when", TIMELINE),
        ("check", "Says whether a certificate is the choice that a network settles at", &[FILE, MOMENT, WHERE]),
        ("choice", "Writes the choice that a network settles at, as a certificate, without a run", &[MOMENT]),
        ("accuracy", "Says how exact the time is that each system gets, without a run",
            &[MOMENT, READS, ALWAYS, MAX_ERROR]),
        ("explain", "Says why a system follows whom it follows, without a run", &[CLOCK, MOMENT]),
        ("lint", "Says what isn't as it should be in a document, without a run", &[STRICT]),
        ("faults", "Lets each link and each system fail and come back, and says what that does to the network",
            FAULTS),
    ];
}

/// What help says of the input and output of a command. No proof computes with these texts.
#[rattlefmt::skip]
pub(crate) fn help_of(command: &str) -> &'static str {
    match command {
        "compare" => "\
Input: standard input, of at most 1 MiB (1,048,576 octets). Each line has two Announce messages in
hexadecimal, with a blank between them.
Example: gptp_sim compare < examples/announces.txt",
        "run" => "\
Input: standard input, a document in TOML of at most 32 MiB (33,554,432 octets), such as
  version = 1
  [[system]]
  clock = '00a0deFFFE000001'
  ports = 1
The document comes by '<': its name as a word of the command line is an error.
Times are in ns, and offset and delay in 2^-16 ns: divide them by 65536.
Example: gptp_sim run --until 5000000000 --seed 7 < examples/vehicle.toml",
        "timeline" => "\
Input: standard input, a document in TOML of at most 32 MiB (33,554,432 octets).
Output: each event, what each act leaves another at which system, and, where a stretch between the times of
events ends, how long the choice took to stand, how long a system went without time, and how far time was off.
With --times also what systems read at any moment: how far off, how far apart, and by how much it jumped.
With a --max- the last line is 'within', or 'exceeded' with the first word that is above it in some stretch.
Times are in ns.
Example: gptp_sim timeline --summary --max-choice 4000000000 < examples/vehicle.toml",
        "check" => "\
Input: standard input, a document in TOML of at most 32 MiB (33,554,432 octets), and FILE, a
certificate of at most 1 MiB (1,048,576 octets), such as 'run --certificate' writes.
The document comes by '<', the certificate by its name.
Output: 'accepted', or the first test that the certificate fails; with --where a second line says at which place.
Example: gptp_sim check certificate.txt < examples/vehicle.toml",
        "choice" => "\
Input: standard input, a document in TOML of at most 32 MiB (33,554,432 octets).
Output: a certificate, as 'run --certificate' writes one once a calm network has settled; 'check' accepts it.
Example: gptp_sim choice < examples/ring.toml",
        "accuracy" => "\
Input: standard input, a document in TOML of at most 32 MiB (33,554,432 octets).
Output: the time from which on it holds, and each system with its root, its steps from it, and by how much an
offset may be off in the instant it comes, in ns, rounded up. Where links lose frames or are too long it is none.
Between two Syncs an application reads a time that ages: --reads and --always say by how much that may be off.
Example: gptp_sim accuracy --max-error 1000 < examples/ring.toml",
        "explain" => "\
Input: standard input, a document in TOML of at most 32 MiB (33,554,432 octets).
Output: what the system with this clock follows once the network has settled and why that is better, over which
systems, why each of its ports has its role, and the systems by rank: who would be next.
Example: gptp_sim explain 0080e1fffe00000c < examples/ring.toml",
        "lint" => "\
Input: standard input, a document in TOML of at most 32 MiB (33,554,432 octets).
Output: where a document is refused, the test, the place and the reason. Otherwise a line for each key that
isn't read, link that is too long or loses frames, system without a link, time at which the network falls
apart, choice that a MAC address decides, and component that nobody leads; and for each time whether the
network is calm, and how long it takes at most to settle, in ns.
Example: gptp_sim lint --strict < examples/ring.toml",
        _ => "\
Input: standard input, a document in TOML of at most 32 MiB (33,554,432 octets).
Output: each link in use goes down, and each live system hangs, at several moments, and comes back once the
network has settled; of each, the worst while it is down ('down') and when it is back ('back'), and how many
systems follow which root meanwhile; the worst case first. 'cut' counts who the fault cuts off, and 'astray'
who of the others is without the time that most of them share. The last line is 'within', or 'exceeded' with
the first word of 'worst' that is above its --max-.
With --times also what systems read at any moment: how far off, how far apart, and by how much it jumps.
Times are in ns. With --parts cases are dealt out: 'tools/planner merge' makes one text of the parts.
Example: gptp_sim faults --max-holdover 2500000000 < examples/ring.toml",
    }
}
