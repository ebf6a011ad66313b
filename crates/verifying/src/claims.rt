//! The claims of a certificate, in the order of their lines.
ghost use Rattle.std.specs.Prelude.{◌≡◌, ◌<◌, ◌++◌, ◌∷◌, [], Contains, MatchOption, OnErr, OnOk, length, slice_get, Some};
ghost use Rattle.verifying.specs.Certificate.{NoneAbout};

use crate::kept::Kept;
use certificates::Claim;
use moves::Board;
use std::alloc::{AllocError, Allocator};
use std::collections::HashMap;
use std::hash::{BuildHasherDefault, FoldHasher};
use std::marker::Model;

/// Claims, and a map from a position's words to the plies of the first claim about it.
#[derive(Drop)]
pub struct Claims<A: Allocator> {
    list: Vec<Kept, A>,
    index: HashMap<[u64; 3], u8, BuildHasherDefault<FoldHasher>, A>,
}

impl<A: Allocator> Model for Claims<A> {
    ghost use Rattle.std.specs.Prelude.{List};
    ghost use Rattle.certificates.specs.declared.claim.Claim.{Claim};
    ghost use Rattle.verifying.specs.Index.{IsIndexOf};

    ghost Value = { List Claim };

    ghost view = { λ claims. claims.list.items };

    ghost invariant = { λ claims. IsIndexOf claims.index.entries claims.list.items };
}

impl<A: Allocator + Copy> Claims<A> {
    /// No claims.
    pub fn new(alloc: A) -> Claims<A>
        ensures { result ≡ [] }
    {
        Claims {
            list: Vec::new(alloc),
            index: HashMap::new(alloc),
        }
    }

    /// How many there are.
    pub fn len(&self) -> usize
        ensures { result ≡ length self.now }
    {
        self.list.len()
    }

    /// The claim at this place.
    pub fn claim(&self, place: usize) -> Claim
        requires { place < length self.now }
        ensures { slice_get self.now place ≡ Some result }
    {
        self.list[place].claim()
    }

    /// The plies of a claim about the position, if there is one.
    pub fn find(&self, position: &Board) -> Option<u8>
        ensures { MatchOption result (NoneAbout self.now position.now)
            (λ plies. Contains self.now (record { position = position.now; plies = plies })) }
    {
        let words = position.words();
        self.index.get(&words).copied()
    }

    /// Adds a claim at the end. The first claim about a position is the one that is found.
    pub fn push(&mut self, position: &Board, plies: u8) -> Result<(), AllocError>
        ensures ok { OnOk result (self.new ≡ self.old ++ record { position = position.now; plies = plies } ∷ []) }
        ensures err { OnErr result (self.new ≡ self.old) }
    {
        let first = self.find(position).unwrap_or(plies);
        self.list.reserve(1)?;
        self.index.insert(position.words(), first)?;
        self.list.push_reserved(Kept::of(position, plies));
        Ok(())
    }

    /// Leaves no claims.
    pub fn clear(&mut self)
        ensures { self.new ≡ [] }
    {
        self.list.clear();
        self.index.clear();
    }
}
