//! The slot of one thread, as the tests know it.
use crate::bounded::Bounded;
use slots::{Act, Lore, Probe, Store};

// What stands in the slot, and whether its number is even.
#[derive(Drop)]
struct Machine {
    even: bool,
    holds: Option<[u64; 3]>,
}

impl Machine {
    fn may_probe(&self, key: [u64; 3], reply: Probe) -> bool {
        let found = match self.holds {
            None => Probe::Vacant,
            Some(words) => {
                if Bounded::key_of(words) == key {
                    Probe::Hit(words)
                } else {
                    Probe::Other
                }
            }
        };
        reply == Probe::Busy || reply == found
    }

    fn may_store(&self, words: [u64; 3], reply: Store) -> bool {
        let found = match self.holds {
            None => Store::Stored,
            Some(old) => {
                if self.even && Bounded::prefers(old, words) {
                    Store::Kept(old)
                } else {
                    Store::Stored
                }
            }
        };
        reply == Store::Busy || reply == found
    }

    // Whether the machine may give the reply. Words that it stored stand there.
    fn takes(&mut self, act: Act) -> bool {
        match act {
            Act::Asked(key, reply) => self.may_probe(key, reply),
            Act::Offered(words, reply) => {
                let may = self.may_store(words, reply);
                if reply == Store::Stored {
                    self.holds = Some(words);
                }
                may
            }
        }
    }
}

/// Whether the acts, in their order, are a run of the slot of one thread from nothing.
pub fn is_run(even: bool, acts: &[Act]) -> bool {
    let mut machine = Machine { even, holds: None };
    for act in acts {
        if !machine.takes(*act) {
            return false;
        }
    }
    true
}

const KEY: [u64; 3] = [0x8000000000000001, 0, 0];

const OLD: [u64; 3] = [0x8000000000000001, 3 << 48, 3 << 48];

const NEW: [u64; 3] = [0x8000000000000001, 0, 5 << 48];

#[test]
fn a_run_is_known(rt: HostRuntime) {
    assert!(rt;
        is_run(
            true,
            &[
                Act::Asked(KEY, Probe::Vacant),
                Act::Offered(OLD, Store::Stored),
                Act::Asked(KEY, Probe::Hit(OLD))
            ]
        )
    );
    assert!(rt;
        is_run(
            true,
            &[
                Act::Offered(OLD, Store::Stored),
                Act::Offered(NEW, Store::Kept(OLD))
            ]
        )
    );
    assert!(rt;
        is_run(
            false,
            &[
                Act::Offered(OLD, Store::Stored),
                Act::Offered(NEW, Store::Stored)
            ]
        )
    );
}

#[test]
fn what_is_no_run_is_told_from_one(rt: HostRuntime) {
    assert!(rt;
        !is_run(
            true,
            &[
                Act::Offered(OLD, Store::Stored),
                Act::Offered(NEW, Store::Stored)
            ]
        )
    );
    assert!(rt;
        !is_run(
            false,
            &[
                Act::Offered(OLD, Store::Stored),
                Act::Offered(NEW, Store::Kept(OLD))
            ]
        )
    );
    assert!(rt;
        !is_run(
            true,
            &[
                Act::Offered(OLD, Store::Stored),
                Act::Asked(KEY, Probe::Vacant)
            ]
        )
    );
    assert!(rt; !is_run(true, &[Act::Asked(KEY, Probe::Other)]));
}
