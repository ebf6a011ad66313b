//! The program's commands and their arguments, as tables, with the texts of `-h` (short) and `--help` (long). The help of a command begins
//! with an example.

/// How an argument is written.
pub enum Form {
    /// A word that must be there.
    Word,
    /// `--name`, which takes no value.
    Flag,
    /// A text after `--name`: what help calls it, and what is taken where none is given.
    Value(&'static str, &'static [&'static str]),
    /// A number of 32 bits after `--name`, likewise.
    Number(&'static str, &'static [&'static str]),
}

/// An argument, and what its short and its long help say.
pub struct Argument {
    pub name: &'static str,
    pub form: Form,
    pub help: &'static str,
    pub more: &'static str,
}

/// A command: what it does, an example, and what its long help says below.
pub struct Verb {
    pub name: &'static str,
    pub about: &'static str,
    pub example: &'static str,
    pub more: &'static str,
    pub arguments: &'static [Argument],
}

pub const PROGRAM: &str = "Finds forced mates in two small chess games, and proves them";

pub const PROGRAM_NOTES: &str = "\
A mate in M moves is `--mate M` or `--limit 2M-1`. Beyond three moves add
`--slots 1048573`. `minimate --help` and `minimate solve --help` explain more.

Example:
  minimate solve --limit 3 'k5/6/2K3/6/6/1R4 w'";

pub const PROGRAM_MORE: &str = "\
The games are Los Alamos chess (6 by 6) and Gardner minichess (5 by 5).

Limits and answers count plies, and a ply is one move of one side. So a mate in
M moves is `--limit 2M-1`, or `--mate M`. Beyond three moves add
`--slots 1048573`, which takes some 65 MB of memory. The number is a prime:
a table whose size is a power of two spreads its entries badly.

A session:
  $ minimate show 'k5/6/2K3/6/6/1R4 w'
   6  k . . . . .
   5  . . . . . .
   4  . . K . . .
   3  . . . . . .
   2  . . . . . .
   1  . R . . . .
      a b c d e f      White to move
  $ minimate solve --limit 3 'k5/6/2K3/6/6/1R4 w'
  mate 3 c4c5
  $ minimate keys --limit 1 'k4/2P2/1K3/5/5 w'
  c4c5q 1
  c4c5r 1
  $ minimate tree --limit 3 'k5/6/2K3/6/6/1R4 w'
  c4c5{a6a5:b1a1#}
  $ minimate batch --limit 3 < positions
  mate 3 c4c5
  none within 3

Exit status:
  0  answered
  1  refused; the output has the reason, as `refused: Kings`, and standard error
     a sentence that says what to write
  2  the command line is wrong, or it asks for help
  3  out of memory; the output ends with `refused: NoMemory`
  4  the input could not be read, or the output could not be written";

pub const SOLVE: Verb = Verb {
    name: "solve",
    about: "Find the fewest plies to mate and the first move",
    example: "Example: minimate solve --limit 3 'k5/6/2K3/6/6/1R4 w'",
    more: "\
The side to move is the attacker. The output is `mate 3 c4c5`: the fewest plies
within which the attacker forces mate, and the least first move that does so. It
is `none within 3` if there is no mate within the limit. With `--goal stale` it
is `goal 1 b1b5`.

More examples:
  minimate solve --mate 2 'k5/6/2K3/6/6/1R4 w'
  minimate solve --limit 1 --goal stale 'k5/6/2K3/6/6/1R4 w'
  minimate solve --limit 9 --slots 1048573 '2qK1/3B1/1k1NQ/3b1/r1Q2 w'",
    arguments: &[LIMIT, MATE, WORKERS, SLOTS, GOAL, PROGRESS, FEN],
};

pub const KEYS: Verb = Verb {
    name: "keys",
    about: "List the first moves that force mate",
    example: "Example: minimate keys --limit 3 'k5/6/2K3/6/6/1R4 w'",
    more: "\
The output has a line for each first move that forces mate within the limit, as
`c4c5 3`: the move, and the fewest plies that it takes. The lines are in the
order of `minimate moves`. The output is `none within 3` if there is no such
move. A problem is cooked if two lines have the least number of plies.",
    arguments: &[LIMIT, MATE, WORKERS, SLOTS, GOAL, PROGRESS, FEN],
};

pub const TREE: Verb = Verb {
    name: "tree",
    about: "Write the tree of moves that forces mate",
    example: "Example: minimate tree --limit 3 'k5/6/2K3/6/6/1R4 w'",
    more: "\
The output is the answer of `solve` as a tree on one line, or `none within 3`. A
tree is a move of the attacker, and then # for mate, = for stalemate, or in
braces each lawful reply in order, a colon and the tree that answers the reply.
At each turn the attacker plays the least of the moves that force the goal in
the fewest plies. `minimate check` checks a tree.

More examples:
  minimate tree --limit 3 --first f1f2 'k5/6/1K4/6/6/5R w'",
    arguments: &[LIMIT, MATE, WORKERS, SLOTS, GOAL, PROGRESS, FEN, FIRST],
};

pub const SOLUTION: Verb = Verb {
    name: "solution",
    about: "Write the solution of a problem",
    example: "Example: minimate solution --limit 3 'k5/6/2K3/6/6/1R4 w'",
    more: "\
The output is the solution as composers publish it, or `none within 3`. Each key
is marked with ! and followed by its threat, or by `zugzwang`. The defender's
replies follow below, indented, each with the attacker's answer and its duals,
down to the mate. `1...~` introduces the play after a threat. If there is more
than one key, the problem is cooked.

More examples:
  minimate solution --mate 2 --set --tries 'k5/6/2K3/6/6/1R4 w'
  minimate solution --mate 3 --short '2k3/6/6/2K3/6/5Q w'
  minimate solution --mate 2 --figurines 'k5/6/2K3/6/6/1R4 w'
  minimate solution --mate 2 --svg 'k5/6/2K3/6/6/1R4 w' > problem.svg
  minimate solution --mate 2 --first b1b2 'k5/6/2K3/6/6/1R4 w'",
    arguments: &[
        LIMIT, MATE, WORKERS, SLOTS, GOAL, PROGRESS, FEN, SET, TRIES, FIGURINES, SHORT, DATA,
        CAPTIONED, TOLD,
    ],
};

pub const CHECK: Verb = Verb {
    name: "check",
    about: "Check a tree of moves that is read from the input",
    example: "Example: echo 'c4c5{a6a5:b1a1#}' | minimate check 'k5/6/2K3/6/6/1R4 w'",
    more: "\
The input is one tree, with or without a line feed after it, of at most 1048576
bytes in all. A tree is a move of the attacker, and then # for mate, = for
stalemate, or in braces each lawful reply in order, a colon and the tree that
answers the reply. The output is `yes 3`, with the plies within which the tree
forces the goal, or `no`; standard error then says where the tree is wrong. A
text that is no tree is refused with the offset at which it goes wrong. So is a
tree in which more than 32 moves of the attacker are nested.",
    arguments: &[GOAL, FEN],
};

pub const VERIFY: Verb = Verb {
    name: "verify",
    about: "Check a certificate of an answer that is read from the input",
    example: "Example: minimate verify 'k5/6/2K3/6/6/1R4 w' < certificate",
    more: "\
The input is a certificate: an answer as `solve` prints it, and then lines of
claims that prove it. They prove that no mate is shorter and no lesser first
move as good, or that there is no mate. If every line holds, the output is the
answer. Otherwise the certificate is refused: as `Answer` if the first line is
no answer, and as `Claim at line 3` if a line is missing, isn't a claim, or is
false. The checker uses no table, and searches three plies at most. A line has
at most 8192 bytes.",
    arguments: &[GOAL, FEN],
};

pub const CERTIFY: Verb = Verb {
    name: "certify",
    about: "Write a certificate of the answer",
    example: "Example: minimate certify --limit 3 'k5/6/2K3/6/6/1R4 w' > certificate",
    more: "\
The first line is the answer of `solve`. The lines after it are claims that
prove the answer: that the mate is forced, that no mate is shorter and no lesser
first move as good, or that there is no mate. `minimate verify` and
tools/verify.py check a certificate.",
    arguments: &[LIMIT, MATE, WORKERS, SLOTS, GOAL, PROGRESS, FEN],
};

pub const MOVES: Verb = Verb {
    name: "moves",
    about: "List the lawful moves",
    example: "Example: minimate moves 'rnqknr/pppppp/6/6/PPPPPP/RNQKNR w'",
    more: "\
Each move has a line of its own: the square it leaves, the square it goes to,
and q, r, b or n for a promotion, as `c5c6q`. Moves are ordered by the first
square, then by the second, then by the promotion in that order. Squares are
ordered by ranks: a1, b1 and so on.",
    arguments: &[FEN],
};

pub const SHOW: Verb = Verb {
    name: "show",
    about: "Draw the board",
    example: "Example: minimate show 'k5/6/1K4/6/6/5R w'",
    more: "\
The drawing has the numbers of the ranks and the letters of the files, a letter
for each unit, a point for each empty square, and the side to move.",
    arguments: &[SVG, UNICODE, BLACK, FEN],
};

pub const AFTER: Verb = Verb {
    name: "after",
    about: "Write the position after a move",
    example: "Example: minimate after 'k5/6/2K3/6/6/1R4 w' c4c5",
    more: "\
The output is the text of the position after the move. Write the move as
`minimate moves` prints it. Any other text is refused as `Move`.",
    arguments: &[FEN, MOVE],
};

pub const BATCH: Verb = Verb {
    name: "batch",
    about: "Solve each position that is read from the input",
    example: "Example: minimate batch --limit 5 --slots 1048573 < positions",
    more: "\
The input has a position on each line. For each line the output has a line, in
the order of the input: the answer of `solve`, or the refusal. All lines share
one table. Empty lines and lines that begin with # are copied to the output. A
line has at most 256 bytes.

A line may have its own limit after the position, in moves, as in
`k5/6/2K3/6/6/1R4 w ; dm 2`. That line is searched within three plies, whatever
the limit is. Its answer ends with `ok` if the mate takes exactly two moves, and
with `differs` otherwise.",
    arguments: &[
        LIMIT, MATE, WORKERS, SLOTS, GOAL, PROGRESS, ECHO, KEY_LISTS, OBJECTS, LINES, SKIP,
    ],
};

const FEN: Argument = Argument {
    name: "FEN",
    form: Form::Word,
    help: "The position as one word, as 'k5/6/1K4/6/6/5R w'",
    more: "\
The position as one word, so quote it: the ranks from the top one
down, with / between them, then a space and w or b, the side to move.
A rank begins at the a-file. K Q R B N P are White's units, k q r b n
p are Black's, and a digit counts empty squares. Six ranks of six
squares are Los Alamos chess, five of five Gardner minichess.
'k5/6/1K4/6/6/5R w': Black's king on a6, White's on b4, White's rook
on f1, White to move.",
};

const MOVE: Argument = Argument {
    name: "MOVE",
    form: Form::Word,
    help: "The move, as c4c5, or c5c6q for a promotion",
    more: "\
The move: the square it leaves, the square it goes to, and q, r, b or
n for a promotion, as c5c6q.",
};

const LIMIT: Argument = Argument {
    name: "limit",
    form: Form::Number("N", &[]),
    help: "The most plies to the goal, 1 to 63",
    more: "\
The most plies to the goal, 1 to 63. A ply is one move of one side,
so a mate in M moves takes 2M-1 plies.",
};

const MATE: Argument = Argument {
    name: "mate",
    form: Form::Number("M", &[]),
    help: "The most moves to the goal, 1 to 32, in place of --limit",
    more: "\
The most moves of the attacker to the goal, 1 to 32: `--mate M` means
`--limit 2M-1`. Give one of the two. Answers count plies either way.",
};

const WORKERS: Argument = Argument {
    name: "workers",
    form: Form::Number("K", &["2"]),
    help: "How many threads search, 1 to 16",
    more: "\
How many threads search, 1 to 16, beside the first thread of the
program. The number changes how long a search takes, and never the
answer.",
};

const SLOTS: Argument = Argument {
    name: "slots",
    form: Form::Number("S", &["64"]),
    help: "How many slots the table has, 1 to 1048576",
    more: "\
How many slots the table of decided positions has, 1 to 1048576. The
number changes how long a search takes and how much memory it uses
(some 65 bytes a slot), and never the answer. Best is a prime, as
1048573.",
};

const GOAL: Argument = Argument {
    name: "goal",
    form: Form::Value("GOAL", &["mate"]),
    help: "What to play for, `mate` or `stale`",
    more: "\
What the attacker plays for: `mate`, or `stale`. With `stale` a
stalemate counts as much as a mate.",
};

const PROGRESS: Argument = Argument {
    name: "progress",
    form: Form::Flag,
    help: "Show the progress of the search on standard error",
    more: "\
Shows the progress of a search on standard error, as one line that is
redrawn at least every second: `12 s, none within 9, round 11: move 14
of 31, c4c5`. The move is the least first move that isn't decided yet.
Each round that finds no mate leaves a line `none within 9`.",
};

const FIRST: Argument = Argument {
    name: "first",
    form: Form::Value("MOVE", &[]),
    help: "The first move of the tree, as c4c5",
    more: "\
The tree's first move, as `minimate keys` prints it. The output is
the tree of this move in the fewest plies that it takes, or
`none within 3` if it forces nothing within the limit.",
};

const SET: Argument = Argument {
    name: "set",
    form: Form::Flag,
    help: "Print the set play too",
    more: "\
Prints the set play too: what would follow if the defender were to
move.",
};

const TRIES: Argument = Argument {
    name: "tries",
    form: Form::Flag,
    help: "Print the tries too",
    more: "\
Prints the tries too: first moves that only one reply refutes, each
with that reply.",
};

const FIGURINES: Argument = Argument {
    name: "figurines",
    form: Form::Flag,
    help: "Print chess symbols in place of letters",
    more: "\
Prints chess symbols in place of the letters K Q R B N.",
};

const SHORT: Argument = Argument {
    name: "short",
    form: Form::Flag,
    help: "Print one line of play after each reply to a key",
    more: "\
Prints the best line of play after each reply to a key, in place of
everything that may follow it.",
};

const DATA: Argument = Argument {
    name: "json",
    form: Form::Flag,
    help: "Write the solution as a JSON object",
    more: "\
Writes the short form as a JSON object, with position, goal, plies,
short, keys, set_play and tries. set_play and tries are null unless
--set and --tries ask for them. Moves are written as squares.",
};

const CAPTIONED: Argument = Argument {
    name: "svg",
    form: Form::Flag,
    help: "Draw the diagram, with stipulation and keys",
    more: "\
Draws the diagram in place of the solution's text, as `minimate show
--svg` does. Below the board it writes the stipulation, `#2`, or `=2`
with --goal stale, and the keys.",
};

const TOLD: Argument = Argument {
    name: "first",
    form: Form::Value("MOVE", &[]),
    help: "Print the play after this first move only, as c4c5",
    more: "\
Prints the play after this first move only: its threat, the replies
that are answered in as few plies as the problem takes, and each reply
that refutes it, as `but 1...Ka5!`. Of the other options of a solution
only --figurines changes this text.",
};

const SVG: Argument = Argument {
    name: "svg",
    form: Form::Flag,
    help: "Draw a picture, in Scalable Vector Graphics",
    more: "\
Draw a picture, in Scalable Vector Graphics. The file contains shapes
and no fonts, and needs no other file. --unicode doesn't change it.",
};

const UNICODE: Argument = Argument {
    name: "unicode",
    form: Form::Flag,
    help: "Draw units as symbols of chess",
    more: "Draw units as symbols of chess, in place of letters.",
};

const BLACK: Argument = Argument {
    name: "black",
    form: Form::Flag,
    help: "Draw the board as Black sees it",
    more: "Draw the board as Black sees it, with rank 1 on top.",
};

const ECHO: Argument = Argument {
    name: "echo",
    form: Form::Flag,
    help: "Write the position and a tab before each answer",
    more: "\
Writes the position and a tab before each answer or refusal.",
};

const KEY_LISTS: Argument = Argument {
    name: "keys",
    form: Form::Flag,
    help: "Write the keys of each position on a line",
    more: "\
Writes the keys of each position on one line, as `minimate keys` finds
them, separated by commas: `c1c5 5,d3c5 5`, or `none within 5`.",
};

const OBJECTS: Argument = Argument {
    name: "json",
    form: Form::Flag,
    help: "Write each reply as a JSON object",
    more: "\
Writes each reply as a JSON object on a line of its own. An answer has
line, position, goal, limit, answer, plies and first, or keys in place
of plies and first. A refusal has line, position, refused and
sentence. Empty lines and comments are left out.",
};

const LINES: Argument = Argument {
    name: "lines",
    form: Form::Number("L", &[]),
    help: "How many lines the input has, to show the progress",
    more: "\
How many lines the input has, 0 if you don't know: shows on standard
error, at most once a second, how many lines are answered and how long
the rest may take. The launcher adds `--lines 0` where standard error
is a terminal and the input and the output are not.",
};

const SKIP: Argument = Argument {
    name: "skip",
    form: Form::Number("L", &[]),
    help: "How many lines at the beginning are skipped",
    more: "\
How many lines at the input's beginning are skipped. Skipped lines
have no reply, and the numbers of the other lines stay. So you can
continue a batch that was interrupted.",
};
