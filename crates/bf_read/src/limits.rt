//! The limits of a graph file, which are this format's own.

/// The most bytes that a graph file may have.
pub const MOST_BYTES: usize = 8_388_608;

/// The most runs that may be open at once.
pub const MOST_ACTIVE_RUNS: u32 = 4_096;

/// The most tasks that a graph file may have.
pub const MOST_TASKS: usize = 2_000;

/// The most distinct edges that a graph file may have.
pub(crate) const MOST_EDGES: usize = 20_000;

/// The most words that a command may have.
pub const MOST_WORDS: usize = 64;

/// The most distinct tasks that a command may pull from.
pub const MOST_PULLS: usize = 16;

/// The most bytes that a text in a command may have.
pub const LONGEST_WORD: usize = 4_096;

/// The most retries that a task may have: further tries of an instance after failed ones.
pub const MOST_RETRIES: u32 = 100;

/// The longest that the next try may wait after a failed one, in seconds: a day.
pub const LONGEST_RETRY_DELAY: u32 = 86_400;

/// The most slots that a pool may have, and that a task may take.
pub const MOST_SLOTS: u32 = 1_000_000;

/// The greatest priority weight that a task may have of its own.
pub const GREATEST_WEIGHT: u32 = 1_000_000;
