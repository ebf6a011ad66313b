//! An order: what the words of a command line mean.
use rules::Goal;

/// What the words of a command line ask for.
#[derive(Clone, Copy)]
pub enum Order<'a> {
    /// A command at one position.
    One(Line<'a>),
    /// A solve of each position of the input.
    Batch(Goal, Limits, BatchOptions),
    /// What the certificate of the input proves.
    Verify(Subject<'a>),
    /// The certificate of the answer of a solve.
    Certify(Subject<'a>, Limits),
    /// The position after a move.
    After(NamedMove<'a>),
    /// The tree of a first move that is given.
    TreeAfter(NamedMove<'a>, Goal, Limits),
    /// The keys of a problem and what follows them.
    Solution(Subject<'a>, Limits, SolutionOptions<'a>),
    /// The board of a position's text, drawn.
    Show(&'a [u8], Drawing),
}

/// What a solution tells beside its keys, and how it is written.
#[derive(Clone, Copy)]
pub struct SolutionOptions<'a> {
    /// Whether it tells what follows if the defender were to move.
    pub set_play: bool,
    /// Whether it tells the first moves that a single reply refutes.
    pub tries: bool,
    /// Whether units are named by figurines.
    pub figurines: bool,
    /// Whether one line stands behind each reply to a key, in place of all that follows.
    pub short: bool,
    /// Whether the short form is written as JSON.
    pub json: bool,
    /// Whether it is a diagram with stipulation and keys, unless it is JSON.
    pub svg: bool,
    /// The name of the first move that alone is told of, where one is given: then figurines are all that else counts.
    pub first: Option<&'a [u8]>,
}

/// How the replies of a batch are written, and what is known of its input.
#[derive(Clone, Copy)]
pub struct BatchOptions {
    /// Whether the position stands before each answer.
    pub echo: bool,
    /// Whether the keys of each position are written in place of its answer.
    pub keys: bool,
    /// Whether each reply is written as JSON.
    pub json: bool,
    /// How many lines the input has, which standard error is told; 0 where they aren't known.
    pub lines: Option<u32>,
    /// How many lines at its beginning are left out, where some are.
    pub skip: Option<u32>,
}

/// A move to be played at a position.
#[derive(Clone, Copy)]
pub struct NamedMove<'a> {
    /// The position's text.
    pub fen: &'a [u8],
    /// The move's name, as `c4c5q`.
    pub name: &'a [u8],
}

/// What a certificate is about: a position, and what its attacker plays for.
#[derive(Clone, Copy)]
pub struct Subject<'a> {
    /// The position's text.
    pub fen: &'a [u8],
    pub goal: Goal,
}

/// A command and the position that it is about.
#[derive(Clone, Copy)]
pub struct Line<'a> {
    /// The position's text.
    pub fen: &'a [u8],
    pub action: Action,
}

/// A command with its values.
#[derive(Clone, Copy, PartialEq, Eq)]
pub enum Action {
    /// The fewest plies to the goal, and the first move.
    Solve(Goal, Limits),
    /// Each first move that forces the goal, and the fewest plies that it takes.
    Keys(Goal, Limits),
    /// Each lawful move.
    Moves,
    /// The tree that shows the answer of a solve.
    Tree(Goal, Limits),
    /// In how many plies the tree of the input wins, if it wins.
    Check(Goal),
}

/// How a board is drawn: by letters as White sees it, unless something else is asked for.
#[derive(Clone, Copy, PartialEq, Eq)]
pub struct Drawing {
    /// Whether it is a picture, whatever else.
    pub svg: bool,
    /// Whether units are symbols of chess.
    pub unicode: bool,
    /// Whether it is drawn as Black sees it.
    pub black: bool,
}

/// How far and with what to search, as the command line has it: any numbers that it can name.
#[derive(Clone, Copy, PartialEq, Eq)]
pub struct Limits {
    /// The most plies to the goal.
    pub limit: u32,
    /// The threads that search, beside the one that the program begins with.
    pub workers: u32,
    /// The slots of the table that remembers decided positions.
    pub slots: u32,
}
