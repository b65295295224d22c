//! Who announced what, under which policies.
ghost use Rattle.std.specs.Prelude.{◌≡◌, ℕ, false, IfOk, None};
ghost use Rattle.peers.specs.Members.{is_member};
ghost use Rattle.prefix.specs.Meant.{meant};
ghost use Rattle.table.specs.Meant.{received_by};

use crate::policies::{Policies, read_clauses};
use anyhow::{Context, ensure};
use example_words::{byte, eight, next, number, numbers, plain_route, prefix_or_whole};
use peers::PeerSet;
use prefix::Prefix;
use rib::Rib;
use route::Metrics;
use std::alloc::{AllocError, Global};
use std::str::SplitWhitespace;
use table::Table;

/// What goes into what a peer should hold. At the start there are four peers, nobody is silent, nobody has announced anything, and every policy accepts everything.
#[derive(Drop)]
pub struct Situation {
    pub peers: u8,
    pub silent: PeerSet,
    pub policies: Policies,
    pub table: Table,
}

impl Situation {
    pub fn new(heap: Global) -> Result<Situation, AllocError>
        ensures { IfOk result (λ s. (s.peers ≡ 4) × ((i : ℕ) → is_member s.silent i ≡ false) × ((i p : ℕ) → received_by s.table i p ≡ None)) }
    {
        let table = Table::new(heap)?;
        Ok(Situation {
            peers: 4,
            silent: PeerSet::none(),
            policies: Policies::accepting(),
            table,
        })
    }

    /// Reads one part of a row: who is there, who is silent, a policy, or what a peer announces.
    pub fn read(&mut self, heap: Global, part: &str) -> anyhow::Result<()> {
        let mut words = part.split_whitespace();
        let Some(word) = words.next() else {
            return Ok(());
        };
        match word {
            "peers" => self.peers = byte(&mut words)?,
            "silent" => self.silent.set(byte(&mut words)?, true),
            "from" => read_clauses(&mut self.policies.imports, &mut words)?,
            "to" => read_clauses(&mut self.policies.exports, &mut words)?,
            "elsewhere" => {
                let peer = byte(&mut words)?;
                self.announce(heap, peer, nine(), &mut words)?;
            }
            peer => {
                let peer = peer.parse::<u8>()?;
                self.announce(heap, peer, eight(), &mut words)?;
            }
        }
        Ok(())
    }

    /// The peer announces the prefix `by` a path, or `far` away and by a path; its local preference of 7 is not used.
    fn announce(
        &mut self,
        heap: Global,
        peer: u8,
        prefix: Prefix,
        words: &mut SplitWhitespace<'_>,
    ) -> anyhow::Result<()> {
        let mut med = 0;
        if next(words)? == "far" {
            med = number(words)?;
            let _ = next(words)?;
        }
        let asns = numbers(heap, words)?;
        let metrics = Metrics { local_pref: 7, med };
        let route = plain_route(prefix, asns.as_slice(), metrics).context(
            "a path has 1 to 32 networks",
        )?;
        ensure!(
            self.table.put(peer, &route).is_ok(),
            "there is no such peer"
        );
        Ok(())
    }
}

/// 10.0.0.0/9, of which is not asked.
fn nine() -> Prefix
    ensures { meant result ≡ record { address = 167772160; length = 9 } }
{
    prefix_or_whole(167_772_160, 9)
}
