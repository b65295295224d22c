//! What conditions ask, at the limits of what they ask of; `fits` tries each negated, too.
use crate::examples::{IS, NOT, condition, fits, list, prefix, route};
use policy::{Condition, Part, PrefixList, Test};
use prefix::Prefix;
use route::Route;
use std::process::Abort;
use std::test::*;

/// The list of 10.0.0.0/16, 10.1.0.0/16 and so on, of so many prefixes.
fn sixteens(rt: &impl Abort, count: u8) -> Result<PrefixList, Fail> {
    let mut list = PrefixList::new();
    for i in 0..count {
        assert!(rt; list.push(prefix([10, i, 0, 0], 16)?).is_ok());
    }
    Ok(list)
}

fn route_of(prefix: Prefix) -> Result<Route, Fail> {
    route(prefix, &[7], &[])
}

/// Whether the prefix is in the list, and whether it is within one of it.
fn asks(
    rt: &impl Abort,
    list: PrefixList,
    prefix: Prefix,
    listed: bool,
    covered: bool,
) -> Result<(), Fail> {
    let route = route_of(prefix)?;
    assert_eq!(rt;
        fits(rt, Test::PrefixIn { list: 0 }, &[list], &route)?,
        listed
    );
    assert_eq!(rt;
        fits(rt, Test::PrefixWithin { list: 0 }, &[list], &route)?,
        covered
    );
    Ok(())
}

#[test]
fn any_fits(rt: HostRuntime) -> Result<(), Fail> {
    assert!(rt; fits(&rt, Test::Any, &[], &route_of(Prefix::whole())?)?);
    Ok(())
}

#[test]
fn lists_of_0_and_1(rt: HostRuntime) -> Result<(), Fail> {
    let near = prefix([10, 0, 0, 0], 16)?;
    asks(&rt, list(&rt, &[])?, near, false, false)?;
    asks(&rt, sixteens(&rt, 1)?, near, true, true)?;
    asks(
        &rt,
        sixteens(&rt, 1)?,
        prefix([10, 0, 255, 0], 24)?,
        false,
        true,
    )?;
    asks(
        &rt,
        sixteens(&rt, 1)?,
        prefix([10, 1, 0, 0], 16)?,
        false,
        false,
    )?;
    asks(
        &rt,
        sixteens(&rt, 1)?,
        prefix([10, 0, 0, 0], 15)?,
        false,
        false,
    )
}

#[test]
fn lists_of_64(rt: HostRuntime) -> Result<(), Fail> {
    let mut most = sixteens(&rt, 64)?;
    asks(&rt, most, prefix([10, 0, 0, 0], 16)?, true, true)?;
    asks(&rt, most, prefix([10, 63, 0, 0], 16)?, true, true)?;
    asks(&rt, most, prefix([10, 63, 128, 0], 17)?, false, true)?;
    asks(&rt, most, prefix([10, 64, 0, 0], 16)?, false, false)?;
    assert!(rt; most.push(prefix([10, 64, 0, 0], 16)?).is_err());
    assert_eq!(rt; most.as_slice().len(), 64);
    asks(&rt, most, prefix([10, 64, 0, 0], 16)?, false, false)
}

#[test]
fn length_0_and_24(rt: HostRuntime) -> Result<(), Fail> {
    let all = list(&rt, &[Prefix::whole()])?;
    let last = prefix([255, 255, 255, 0], 24)?;
    asks(&rt, all, Prefix::whole(), true, true)?;
    asks(&rt, all, prefix([0, 0, 0, 0], 24)?, false, true)?;
    asks(&rt, all, last, false, true)?;
    asks(&rt, list(&rt, &[last])?, last, true, true)?;
    asks(&rt, list(&rt, &[last])?, Prefix::whole(), false, false)?;
    asks(
        &rt,
        list(&rt, &[last])?,
        prefix([255, 255, 254, 0], 24)?,
        false,
        false,
    )
}

/// A list that is not there holds nothing; of those that are there the number says which.
#[test]
fn lists_by_number(rt: HostRuntime) -> Result<(), Fail> {
    let lists = [list(&rt, &[])?, list(&rt, &[Prefix::whole()])?];
    let route = route_of(Prefix::whole())?;
    assert!(rt; !fits(&rt, Test::PrefixIn { list: 0 }, &lists, &route)?);
    assert!(rt; fits(&rt, Test::PrefixIn { list: 1 }, &lists, &route)?);
    assert!(rt; !fits(&rt, Test::PrefixIn { list: 2 }, &lists, &route)?);
    assert!(rt; !fits(&rt, Test::PrefixWithin { list: 255 }, &lists, &route)?);
    Ok(())
}

fn passes(rt: &impl Abort, path: &[u32], asn: u32) -> Result<bool, Fail> {
    fits(
        rt,
        Test::Passes { asn },
        &[],
        &route(Prefix::whole(), path, &[9])?,
    )
}

#[test]
fn networks_on_the_path(rt: HostRuntime) -> Result<(), Fail> {
    assert!(rt; passes(&rt, &[7], 7)?);
    assert!(rt; !passes(&rt, &[7], 9)?);
    assert!(rt; passes(&rt, &[0], 0)?);
    let mut most = [3; 32];
    most[0] = 1;
    most[31] = 2;
    assert!(rt; passes(&rt, &most, 1)?);
    assert!(rt; passes(&rt, &most, 2)?);
    assert!(rt; passes(&rt, &most, 3)?);
    assert!(rt; !passes(&rt, &most, 0)?);
    Ok(())
}

fn is_longer(rt: &impl Abort, path: &[u32], asns: u32) -> Result<bool, Fail> {
    fits(
        rt,
        Test::LongerThan { asns },
        &[],
        &route(Prefix::whole(), path, &[])?,
    )
}

#[test]
fn length_of_the_path(rt: HostRuntime) -> Result<(), Fail> {
    assert!(rt; is_longer(&rt, &[7], 0)?);
    assert!(rt; !is_longer(&rt, &[7], 1)?);
    assert!(rt; is_longer(&rt, &[7, 7], 1)?);
    assert!(rt; is_longer(&rt, &[3; 32], 31)?);
    assert!(rt; !is_longer(&rt, &[3; 32], 32)?);
    assert!(rt; !is_longer(&rt, &[3; 32], 4_294_967_295)?);
    Ok(())
}

fn has(rt: &impl Abort, communities: &[u32], community: u32) -> Result<bool, Fail> {
    fits(
        rt,
        Test::HasCommunity { community },
        &[],
        &route(Prefix::whole(), &[9], communities)?,
    )
}

#[test]
fn communities_on_the_route(rt: HostRuntime) -> Result<(), Fail> {
    assert!(rt; !has(&rt, &[], 9)?);
    assert!(rt; has(&rt, &[0], 0)?);
    assert!(rt; has(&rt, &[1, 2, 3, 4, 5, 6, 7, 8], 1)?);
    assert!(rt; has(&rt, &[1, 2, 3, 4, 5, 6, 7, 8], 8)?);
    assert!(rt; !has(&rt, &[1, 2, 3, 4, 5, 6, 7, 8], 9)?);
    Ok(())
}

/// With no parts a condition holds, and of 16 each must; a 17th is not taken.
#[test]
fn conditions_of_0_to_16_parts(rt: HostRuntime) -> Result<(), Fail> {
    let route = route_of(Prefix::whole())?;
    assert!(rt; Condition::new().holds(&[], &route));
    let mut most = condition(&rt, &[(IS, Test::Any); 16])?;
    assert!(rt; most.holds(&[], &route));
    assert!(rt;
        most.push(Part {
            negated: true,
            test: Test::Any,
        })
        .is_err()
    );
    assert!(rt; most.holds(&[], &route));
    let mut parts = [(IS, Test::Any); 16];
    parts[15] = (NOT, Test::Any);
    assert!(rt; !condition(&rt, &parts)?.holds(&[], &route));
    Ok(())
}
