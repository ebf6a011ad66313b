//! How a text is misspelt, whatever its board and its side say.
use crate::board_text::{Board, split_run};
use crate::sentence::Part::{Bytes, Fault, Number, Text};
use crate::sentence::{NO, Sentence};

/// The first two words of a text, with the blanks before and between them and with what stands behind.
#[derive(Clone, Copy)]
struct Layout<'a> {
    before: &'a [u8],
    board: &'a [u8],
    gap: &'a [u8],
    side: &'a [u8],
    rest: &'a [u8],
    /// The side and the rest.
    from_side: &'a [u8],
}

/// A space, a tab, and the ends of a line or of a page.
const BLANKS: &[u8] = b" \t\n\x0b\x0c\r";

/// What may stand around the moves of a line.
const IDLE: &[u8] = b" \t\n\x0b\x0c\r;-";

/// The most bytes of a board, with some to spare.
const MOST_BOARD: usize = 64;

// What is told of each slip, one behind the other as they are looked for.
const MARK: &str = "the text begins with a byte order mark: leave out these three bytes";

const NEEDLESS: &str = "character % is not ASCII: leave out '%'";

const FOREIGN: &str = "character % is not ASCII: write a letter, a digit, / or a space for '%'";

const NOTHING: &str = "there is no position: write one, as k5/6/1K4/6/6/5R w";

const CHESS: &str =
    "a board of 8 ranks is ordinary chess: Los Alamos chess has 6 ranks of 6 squares, Gardner minichess 5 of 5";

const NO_SIDE: &str =
    "a position has two fields, the board and the side: here is one; write ' w' or ' b' after the board%";

const SPLIT: &str = "there are blanks inside the board: leave them out%";

const RANKS: &str = "blanks separate the ranks: write / between the ranks instead%";

const PARTED: &str = "%: write '% %'%";

const MOVES: &str = "a line has its moves after its position: write ' ; dm %' in place of '%'";

const STUCK: &str = "the side to move is w or b: leave out '%' after it%";

const FIELDS: &str =
    "a position has two fields, the board and the side: here are %; leave out '%'%";

/// The number that is said behind a side in another way than a batch reads it, as `;dm 2`, ` ; dm 02` or EPD's ` - - dm 2;`.
fn moves_of(tail: &[u8]) -> Option<u32> {
    let (_, words) = split_run(tail, IDLE, true);
    let [b'd', b'm', number @ ..] = words else {
        return None;
    };
    let (_, number) = split_run(number, BLANKS, true);
    let (digits, behind) = split_run(number, IDLE, false);
    let (_, more) = split_run(behind, IDLE, true);
    if more.is_empty() {
        str::from_utf8(digits).ok()?.parse::<u32>().ok()
    } else {
        None
    }
}

/// The number of fields where so many stand behind the second, in a word where there are few.
fn fields_word(behind: &[u8]) -> &'static str {
    let (mut count, mut text) = (2usize, behind);
    for _ in 0..behind.len() {
        let (_, words) = split_run(text, BLANKS, true);
        let (word, behind) = split_run(words, BLANKS, false);
        if !word.is_empty() {
            count = count.saturating_add(1);
        }
        text = behind;
    }
    match count {
        3 => "three",
        4 => "four",
        5 => "five",
        6 => "six",
        _ => "more",
    }
}

/// That the first character that isn't ASCII, which may have several bytes, is none.
fn foreign_sentence(text: &[u8], is_needless: bool) -> Sentence<'_> {
    let (mut before, mut end) = (0usize, 0usize);
    for (i, c) in text.iter().enumerate() {
        if end == 0 && *c < 0x80 {
            before = i.saturating_add(1);
        } else if end == 0 || (0x80 <= *c && *c < 0xc0) {
            end = i.saturating_add(1);
        } else {
            break;
        }
    }
    let (text, _) = text.split_at(end.min(text.len()));
    let (_, character) = text.split_at(before.min(text.len()));
    let number = Number(before.saturating_add(1));
    let text = if is_needless { NEEDLESS } else { FOREIGN };
    Sentence(text, (number, Bytes(character), NO, NO))
}

/// Whether the board is well once each run of blanks in it is a slash, if it then has a game's shape. The board ends at the first
/// word that is a side.
fn board_of_words(text: &[u8]) -> Option<bool> {
    let (mut room, mut count, mut text) = ([0u8; MOST_BOARD], 0usize, text);
    for _ in 0..text.len() {
        let (_, words) = split_run(text, BLANKS, true);
        let (word, behind) = split_run(words, BLANKS, false);
        if matches!(word, [b'w' | b'b']) {
            let board = Board::of(&room[..count.saturating_sub(1).min(MOST_BOARD)]);
            return board.has_shape().then_some(board.is_well());
        }
        let end = count.saturating_add(word.len());
        if word.is_empty() || end >= MOST_BOARD {
            return None;
        }
        room[count..end].copy_from_slice(word);
        room[end] = b'/';
        (count, text) = (end.saturating_add(1), behind);
    }
    None
}

/// Whether the board is well once the blanks in it are left out: it ends before a word behind the first that is a side.
fn joins_well(text: &[u8]) -> bool {
    let (mut room, mut count, mut text) = ([0u8; MOST_BOARD], 0usize, text);
    for _ in 0..text.len() {
        let (_, words) = split_run(text, BLANKS, true);
        let (word, behind) = split_run(words, BLANKS, false);
        if count > 0 && matches!(word, [b'w' | b'b']) {
            break;
        }
        let end = count.saturating_add(word.len());
        if end > MOST_BOARD {
            return false;
        }
        room[count..end].copy_from_slice(word);
        (count, text) = (end, behind);
    }
    Board::of(&room[..count.min(MOST_BOARD)]).is_well()
}

impl<'a> Layout<'a> {
    /// What stands behind the side's letter: a sign and what follows, or else the words behind the second.
    fn behind_side(self, is_line: bool) -> Option<Sentence<'a>> {
        let fault = Fault(!Board::of(self.board).is_well());
        let (is_stuck, tail) = match self.from_side {
            [b'w' | b'b', c, ..] if !BLANKS.contains(c) && !c.is_ascii_alphanumeric() => {
                (true, &self.from_side[1..])
            }
            _ => (false, self.rest),
        };
        let (text, told) = match moves_of(tail) {
            Some(moves) if is_line => (MOVES, (Number(moves as usize), Bytes(tail), NO, NO)),
            _ if is_stuck => (STUCK, (Bytes(tail), fault, NO, NO)),
            _ if tail.is_empty() => return None,
            _ => (FIELDS, (Text(fields_word(tail)), Bytes(tail), fault, NO)),
        };
        Some(Sentence(text, told))
    }

    /// How board and side are parted, where not by one space alone, or else what stands behind the side.
    fn parting(self, is_line: bool) -> Option<Sentence<'a>> {
        let (spaces, others) = split_run(self.gap, b" ", true);
        let (_, behind) = split_run(self.rest, BLANKS, true);
        let what = if !others.is_empty() {
            "there is a tab or a line end after the board"
        } else if spaces.len() > 1 {
            "there are several spaces after the board"
        } else if !self.before.is_empty() || (behind.is_empty() && !self.rest.is_empty()) {
            "there are blanks around the position"
        } else {
            return self.behind_side(is_line);
        };
        let fault = Fault(!Board::of(self.board).is_well());
        let parts = (Text(what), Bytes(self.board), Bytes(self.side), fault);
        Some(Sentence(PARTED, parts))
    }

    /// What is wrong with text that is ASCII.
    fn slip(self, text: &'a [u8], is_line: bool) -> Option<Sentence<'a>> {
        let board = Board::of(self.board);
        let (stuck, letter) = self.board.split_at(self.board.len().saturating_sub(1));
        let (_, behind) = split_run(self.rest, BLANKS, true);
        let has_side = matches!(self.side, [b'w' | b'b']);
        // More of the board has a slash, or is no side, and one stands behind it.
        let is_more = self.side.contains(&b'/') || (!has_side && matches!(behind, [b'w' | b'b']));
        if matches!(letter, [b'w' | b'b']) && !has_side && Board::of(stuck).has_shape() {
            let fault = Fault(!Board::of(stuck).is_well());
            let what = Text("there is no space after the board");
            return Some(Sentence(PARTED, (what, Bytes(stuck), Bytes(letter), fault)));
        }
        let (text, is_well) = if self.board.is_empty() {
            (NOTHING, true)
        } else if let (false, Some(is_well)) = (self.board.contains(&b'/'), board_of_words(text)) {
            (RANKS, is_well)
        } else if board.ranks == 8 && board.uneven(8, 8).is_none() {
            (CHESS, true)
        } else if self.side.is_empty() {
            (NO_SIDE, board.is_well())
        } else if is_more && !board.has_shape() {
            (SPLIT, joins_well(text))
        } else {
            return self.parting(is_line);
        };
        Some(Sentence(text, (Fault(!is_well), NO, NO, NO)))
    }
}

/// What is to be mended first in how a text is written whose fields, board or side are refused.
pub fn slip_of(text: &[u8], is_line: bool) -> Option<Sentence<'_>> {
    let (before, from_board) = split_run(text, BLANKS, true);
    let (board, from_gap) = split_run(from_board, BLANKS, false);
    let (gap, from_side) = split_run(from_gap, BLANKS, true);
    let (side, rest) = split_run(from_side, BLANKS, false);
    let layout = Layout {
        before,
        board,
        gap,
        side,
        rest,
        from_side,
    };
    if text.starts_with(b"\xef\xbb\xbf") {
        Some(Sentence(MARK, (NO, NO, NO, NO)))
    } else if board.is_ascii() && side.is_ascii() {
        layout.slip(text, is_line)
    } else {
        // Whether the words are well without characters that aren't ASCII.
        let is_needless = if board.is_ascii() {
            side.contains(&b'w') || side.contains(&b'b')
        } else {
            Board::of(board).has_shape()
        };
        Some(foreign_sentence(text, is_needless))
    }
}
