//! A tree's text both ways.
use crate::solving::root;
use moves::Goal;
use std::alloc::Global;
use wintree::{TreeFault, check, read_tree, tree_text};

/// A tree that wins at the root, in three plies.
const MATE: &[u8] = b"c4c5{a6a5:b1a1#}";

const TEXT: &[u8] = b"c1e1{b6a6:e1e6#,b6c6:e1e6#}";

/// A tree is read, and no more is asked of it.
pub(crate) fn parse(alloc: Global) -> &'static str {
    match read_tree(alloc, MATE) {
        Ok(_) => "read",
        Err(TreeFault::NoMemory) => "no memory",
        Err(_) => "fault",
    }
}

/// A tree is read, measured and checked.
pub(crate) fn check_read(alloc: Global) -> &'static str {
    let Some(root) = root() else {
        return "no position";
    };
    match read_tree(alloc, MATE) {
        Ok(tree) if tree.depth() == 2 && check(&root, &tree, Goal::Mate) == Some(3) => "read",
        Ok(_) => "wrong",
        Err(TreeFault::NoMemory) => "no memory",
        Err(_) => "fault",
    }
}

pub(crate) fn read(alloc: Global) -> &'static str {
    match read_tree(alloc, TEXT) {
        Ok(tree) if tree.depth() == 2 => "read",
        Ok(_) => "wrong",
        Err(TreeFault::NoMemory) => "no memory",
        Err(_) => "fault",
    }
}

pub(crate) fn written(alloc: Global) -> &'static str {
    let Ok(tree) = read_tree(alloc, TEXT) else {
        return "no memory";
    };
    match tree_text(alloc, &tree) {
        Ok(text) if text.as_slice() == TEXT => "written",
        Ok(_) => "wrong",
        Err(_) => "no memory",
    }
}
