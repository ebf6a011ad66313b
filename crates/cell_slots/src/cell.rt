//! The calls of one slot.
ghost use Rattle.std.specs.Prelude.{◌≡◌, ◌≢◌, ℕ, List, [], true};
ghost use Rattle.crossbeam_utils.specs.Seq.{cell_view, IsSamePass};
ghost use Rattle.slots.specs.declared.calls.Act.TheVariants.{Asked, Offered};
ghost use Rattle.slots.specs.declared.calls.Store.TheVariants.{Stored};
ghost use Rattle.slots.specs.Steps.{HitFits};
ghost use Rattle.cell_slots.specs.Cell.{Makes, reply, told};

use crate::rule::{Cell, Hear, Probed, Put, Token, Told};
use slots::{Lore, Probe};
use std::marker::Brand;
use std::sync::Wait;

// The answer that the words give.
fn reply_to<L: Lore>(words: [u64; 3], key: [u64; 3]) -> Probe
    ensures reply { result ≡ reply L.key key words }
    ensures quiet { result ≢ Probe.Busy }
{
    if words == [0, 0, 0] {
        Probe::Vacant
    } else if L::key_of(words) == key {
        Probe::Hit(words)
    } else {
        Probe::Other
    }
}

// Reads the cell once.
fn look<L: Lore, K: Told, R: Wait>(
    rt: &R,
    cell: &Cell<L>,
    token: &mut Token,
    slot: usize,
    key: [u64; 3],
) -> Probe
    requires cell { token.old.table_id ≡ cell.now.table.shared.table_id }
    requires seated { (cell_view token.old).seated ≡ true }
    requires asked { (token.old.id ≡ K.by) × (slot ≡ K.slot) × (key ≡ K.words) }
    ensures token { IsSamePass token.old token.new }
    ensures call { Makes L.key slot token.old.id (Asked key result) (cell_view token.old) (cell_view token.new) }
    ensures hit { HitFits L.key L.meets (Asked key result) }
    ensures quiet { result ≢ Probe.Busy }
{
    let words = cell.load_as::<Probed<L, K>, R>(rt, token);
    reply_to::<L>(words, key)
}

// Reads the slot, and answers a probe by it.
pub(crate) fn probe<L: Lore, R: Wait>(
    rt: &R,
    cell: &Cell<L>,
    token: &mut Token,
    slot: usize,
    key: [u64; 3],
) -> Probe
    requires cell { token.old.table_id ≡ cell.now.table.shared.table_id }
    requires seated { (cell_view token.old).seated ≡ true }
    ensures token { IsSamePass token.old token.new }
    ensures call { Makes L.key slot token.old.id (Asked key result) (cell_view token.old) (cell_view token.new) }
    ensures hit { HitFits L.key L.meets (Asked key result) }
    ensures quiet { result ≢ Probe.Busy }
{
    look::<L, Brand, R>(rt, cell, token, slot, key)
}

// Exchanges the cell once.
fn write<L: Lore, K: Told, R: Wait>(
    rt: &R,
    cell: &Cell<L>,
    token: &mut Token,
    slot: usize,
    words: [u64; 3],
)
    requires cell { token.old.table_id ≡ cell.now.table.shared.table_id }
    requires seated { (cell_view token.old).seated ≡ true }
    requires asked { (token.old.id ≡ K.by) × (slot ≡ K.slot) }
    requires lore { L.meets words }
    ensures token { IsSamePass token.old token.new }
    ensures call { Makes L.key slot token.old.id (Offered words Stored) (cell_view token.old) (cell_view token.new) }
{
    cell.swap_as::<Put<L, K>, R>(rt, token, words);
}

// Puts the words into the slot.
pub(crate) fn put<L: Lore, R: Wait>(
    rt: &R,
    cell: &Cell<L>,
    token: &mut Token,
    slot: usize,
    words: [u64; 3],
)
    requires cell { token.old.table_id ≡ cell.now.table.shared.table_id }
    requires seated { (cell_view token.old).seated ≡ true }
    requires lore { L.meets words }
    ensures token { IsSamePass token.old token.new }
    ensures call { Makes L.key slot token.old.id (Offered words Stored) (cell_view token.old) (cell_view token.new) }
{
    write::<L, Brand, R>(rt, cell, token, slot, words);
}

// The first caller has then seen what either had. The second is spent.
pub(crate) fn tell<L: Lore>(cell: &Cell<L>, token: &mut Token, other: &mut Token)
    requires cell { token.old.table_id ≡ cell.now.table.shared.table_id }
    requires other { other.old.table_id ≡ cell.now.table.shared.table_id }
    requires seated { ((cell_view token.old).seated ≡ true) × ((cell_view other.old).seated ≡ true) }
    ensures token { IsSamePass token.old token.new }
    ensures other { IsSamePass other.old other.new }
    ensures told { cell_view token.new ≡ told (cell_view token.old) (cell_view other.old) }
{
    let heard = cell.split_pass::<Hear>(other);
    cell.join_pass::<Hear>(token, heard);
}
