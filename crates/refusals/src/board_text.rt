//! What stands where in a text that is no position's.

/// The board part of a text, as it stands there.
#[derive(Clone, Copy)]
pub struct Board<'a> {
    pub text: &'a [u8],
    /// One more than the slashes.
    pub ranks: usize,
}

/// The run of these bytes that the text begins with, or of other ones, and what stands behind it.
pub fn split_run<'a>(text: &'a [u8], bytes: &[u8], is_of_these: bool) -> (&'a [u8], &'a [u8]) {
    for (i, c) in text.iter().enumerate() {
        if bytes.contains(c) != is_of_these {
            return text.split_at(i);
        }
    }
    text.split_at(text.len())
}

/// How many bytes there are from one to another.
pub fn count_of(text: &[u8], first: u8, last: u8) -> usize {
    let mut count: usize = 0;
    for c in text {
        if first <= *c && *c <= last {
            count = count.saturating_add(1);
        }
    }
    count
}

/// How many squares the bytes of the first rank stand for, none if they aren't ASCII, and the ranks behind it.
fn first_rank(text: &[u8]) -> (usize, &[u8]) {
    let mut width: usize = 0;
    for (i, c) in text.iter().enumerate() {
        let squares = match *c {
            b'/' => return (width, &text[i + 1..]),
            b'0'..=b'9' => c.saturating_sub(b'0') as usize,
            0x80.. => 0,
            _ => 1,
        };
        width = width.saturating_add(squares);
    }
    (width, b"")
}

impl<'a> Board<'a> {
    /// The board of a position's text: what stands before its first space.
    pub fn of(fen: &'a [u8]) -> Board<'a> {
        let (text, _) = split_run(fen, b" ", false);
        let ranks = count_of(text, b'/', b'/').saturating_add(1);
        Board { text, ranks }
    }

    /// The first rank up to this one that hasn't so many squares, and its squares. Ranks stand from the last one down.
    pub fn uneven(&self, squares: usize, upto: usize) -> Option<(usize, usize)> {
        let mut text = self.text;
        for rank in (1..=self.ranks).rev() {
            let (width, behind) = first_rank(text);
            if width != squares && rank <= upto {
                return Some((rank, width));
            }
            text = behind;
        }
        None
    }

    /// How many squares most ranks have, where these are of the other game than so many ranks.
    pub fn other_width(&self) -> Option<usize> {
        let other = match self.ranks {
            5 => 6,
            6 => 5,
            _ => return None,
        };
        let (mut text, mut count) = (self.text, 0usize);
        for _ in 0..self.ranks {
            let (width, behind) = first_rank(text);
            if width == other {
                count = count.saturating_add(1);
            }
            text = behind;
        }
        if count > self.ranks / 2 {
            Some(other)
        } else {
            None
        }
    }

    /// Returns where the board has one slash too many, if the board has a game's shape without it.
    pub fn extra_slash(&self) -> Option<&'static str> {
        match self.text {
            [b'/', behind @ ..] if Board::of(behind).has_shape() => Some("at the beginning"),
            [front @ .., b'/'] if Board::of(front).has_shape() => Some("at the end"),
            _ if self.doubled_slash() => Some("between two ranks"),
            _ => None,
        }
    }

    /// Whether two slashes stand side by side: the board has one empty rank, and a game's shape without it.
    fn doubled_slash(&self) -> bool {
        let (mut text, mut empty, mut well) = (self.text, 0usize, 0usize);
        let ranks = self.ranks.saturating_sub(1);
        for _ in 0..self.ranks {
            let (width, behind) = first_rank(text);
            if width == 0 {
                empty = empty.saturating_add(1);
            } else if width == ranks {
                well = well.saturating_add(1);
            }
            text = behind;
        }
        matches!(ranks, 5 | 6) && empty == 1 && well == ranks
    }

    /// Whether there are as many ranks as a game has, and as many squares in each.
    pub fn has_shape(&self) -> bool {
        matches!(self.ranks, 5 | 6) && self.uneven(self.ranks, self.ranks).is_none()
    }

    /// Whether it is a board of units, whatever these are.
    pub fn is_well(&self) -> bool {
        self.has_shape() && self.foreign_letter().is_none() && self.split_digits().is_none()
    }

    /// The first byte that is no unit's, behind the number of its rank.
    pub fn foreign_letter(&self) -> Option<(usize, &'a [u8])> {
        let letters: &[u8] = match self.ranks {
            6 => b"/0123456789KQRNPkqrnp",
            _ => b"/0123456789KQRBNPkqrbnp",
        };
        let (before, behind) = split_run(self.text, letters, true);
        if behind.is_empty() {
            return None;
        }
        let rank = self.ranks.saturating_sub(count_of(before, b'/', b'/'));
        Some((rank, &behind[..1]))
    }

    /// The first run of empty squares that isn't one digit above 0, behind the number of its rank.
    pub fn split_digits(&self) -> Option<(usize, &'a [u8])> {
        let mut rank = self.ranks;
        for i in 0..self.text.len() {
            let c = self.text[i];
            if c == b'0' {
                return Some((rank, &self.text[i..i + 1]));
            }
            if i > 0 && c.is_ascii_digit() && self.text[i - 1].is_ascii_digit() {
                return Some((rank, &self.text[i - 1..i + 1]));
            }
            if c == b'/' {
                rank = rank.saturating_sub(1);
            }
        }
        None
    }
}
