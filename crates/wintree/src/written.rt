//! A tree's text.

ghost use Rattle.std.specs.Prelude.{◌≡◌, ◌++◌, IfOk, OnOk, string_bytes};
ghost use Rattle.wintree.specs.Plan.{IsPlan};
ghost use Rattle.wintree.specs.Text.{text, TreeText};

use crate::fault::NoMemory;
use crate::tree::{End, Next, Tree};
use std::alloc::Allocator;
use std::fmt::Write;

/// The one text of the tree.
pub fn tree_text<A: Allocator, B: Allocator>(
    alloc: B,
    tree: &Tree<A>,
) -> Result<Vec<u8, B>, NoMemory>
    ensures { IfOk result (λ bytes. TreeText bytes.items tree.now) }
{
    let mut written = String::new(alloc);
    push_tree(&mut written, tree)?;
    Ok(written.into_bytes())
}

/// Adds the tree's text.
fn push_tree<A: Allocator, B: Allocator>(
    written: &mut String<B>,
    tree: &Tree<A>,
) -> Result<(), NoMemory>
    ensures moves { IsPlan tree.now }
    ensures written { OnOk result (string_bytes written.new ≡ string_bytes written.old ++ text tree.now) }
{
    let attack = tree.attack;
    write!(written, "{attack}")?;
    match &*tree.next {
        Next::End(End::Mate) => written.push('#')?,
        Next::End(End::Stale) => written.push('=')?,
        Next::Replies(replies) => {
            let mut mark = '{';
            for (reply, below) in replies {
                write!(written, "{mark}{reply}:")?;
                push_tree(written, below)?;
                mark = ',';
            }
            written.push('}')?;
        }
    }
    Ok(())
}
