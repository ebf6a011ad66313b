//! What a solution has beside its keys.

/// What is asked for beside the keys, and whether in more moves than the goal takes: then the problem is short.
#[derive(Clone, Copy, PartialEq, Eq, Debug)]
pub struct Extras {
    pub set_play: bool,
    pub tries: bool,
    pub sooner: bool,
}
