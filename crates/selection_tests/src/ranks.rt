//! Which of two candidates is better.
use crate::examples::route;
use example_words::{BEST_TO_WORST, there};
use selection::{Candidate, better_of};
use std::test::Fail;

fn candidate(rank: (u32, usize, u32, u8)) -> Result<Candidate, Fail> {
    let (local_pref, path_len, med, peer) = rank;
    let asns = [7; 32];
    let path = there(asns.get(..path_len))?;
    Ok(Candidate {
        peer,
        route: route(path, local_pref, med)?,
    })
}

/// Whatever the order in which both come, the one that stands above is the better.
#[test]
fn each_is_better_than_those_below(rt: HostRuntime) -> Result<(), Fail> {
    for (i, first) in BEST_TO_WORST.iter().enumerate() {
        let first = candidate(*first)?;
        for (k, second) in BEST_TO_WORST.iter().enumerate() {
            let second = candidate(*second)?;
            assert_eq!(rt; first.rank().outranks(second.rank()), i < k);
            let better = if i < k { first.peer } else { second.peer };
            assert_eq!(rt; there(better_of(Some(first), second))?.peer, better);
        }
    }
    Ok(())
}

/// The first is better than nothing.
#[test]
fn best_of_one(rt: HostRuntime) -> Result<(), Fail> {
    let only = candidate((0, 32, 4_294_967_295, 255))?;
    assert_eq!(rt; there(better_of(None, only))?.peer, 255);
    Ok(())
}

fn better(best: Option<Candidate>, rank: (u32, usize, u32, u8)) -> Result<Option<Candidate>, Fail> {
    Ok(better_of(best, candidate(rank)?))
}

#[test]
fn best_of_all(rt: HostRuntime) -> Result<(), Fail> {
    let from_the_best = BEST_TO_WORST.into_iter().try_fold(None, better)?;
    assert_eq!(rt; there(from_the_best)?.peer, 255);
    let from_the_worst = BEST_TO_WORST.into_iter().rev().try_fold(None, better)?;
    assert_eq!(rt; there(from_the_worst)?.peer, 255);
    Ok(())
}
