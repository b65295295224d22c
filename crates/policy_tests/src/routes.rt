//! Paths and communities at their limits.
use example_words::there;
use route::{Communities, Path, is_among};
use std::test::*;

const MANY: [u32; 33] = [
    1, 2, 3, 4, 5, 6, 7, 8, 9, 10, 11, 12, 13, 14, 15, 16, 17, 18, 19, 20, 21, 22, 23, 24, 25, 26,
    27, 28, 29, 30, 31, 32, 33,
];

#[test]
fn path_of_1_to_32(rt: HostRuntime) -> Result<(), Fail> {
    assert!(rt; Path::new(&[]).is_none());
    assert!(rt; Path::new(&MANY).is_none());
    let one = there(Path::new(&[0]))?;
    assert_eq!(rt; one.len(), 1);
    assert_eq!(rt; one.asns(), [0].as_slice());
    let most = there(Path::new(&MANY[0..32]))?;
    assert_eq!(rt; most.len(), 32);
    assert_eq!(rt; most.asns(), &MANY[0..32]);
    Ok(())
}

#[test]
fn prepends_up_to_32(rt: HostRuntime) -> Result<(), Fail> {
    let mut path = there(Path::new(&MANY[8..32]))?;
    assert!(rt; path.prepend(5, 0).is_ok());
    assert_eq!(rt; path.asns(), &MANY[8..32]);
    assert!(rt; path.prepend(5, 8).is_ok());
    assert_eq!(rt; path.len(), 32);
    assert_eq!(rt; &path.asns()[0..8], [5; 8].as_slice());
    assert_eq!(rt; &path.asns()[8..], &MANY[8..32]);
    assert!(rt; path.prepend(6, 0).is_ok());
    assert_eq!(rt; path.len(), 32);
    Ok(())
}

#[test]
fn no_33rd_network(rt: HostRuntime) -> Result<(), Fail> {
    let mut path = there(Path::new(&MANY[0..25]))?;
    assert!(rt; path.prepend(5, 8).is_err());
    assert_eq!(rt; path.asns(), &MANY[0..25]);
    assert!(rt; path.prepend(5, 255).is_err());
    let mut most = there(Path::new(&MANY[0..32]))?;
    assert!(rt; most.prepend(5, 1).is_err());
    assert_eq!(rt; most.asns(), &MANY[0..32]);
    Ok(())
}

#[test]
fn communities_rise(rt: HostRuntime) -> Result<(), Fail> {
    assert_eq!(rt; Communities::none().as_slice(), [0u32; 0].as_slice());
    let some = there(Communities::of(&[9, 3, 9, 4_294_967_295, 0, 3, 9, 5]))?;
    assert_eq!(rt; some.as_slice(), [0, 3, 5, 9, 4_294_967_295].as_slice());
    let most = there(Communities::of(&[8, 7, 6, 5, 4, 3, 2, 1]))?;
    assert_eq!(rt; most.as_slice(), &MANY[0..8]);
    Ok(())
}

/// Also those that stand twice are counted.
#[test]
fn communities_of_at_most_8(rt: HostRuntime) -> Result<(), Fail> {
    assert!(rt; Communities::of(&[]).is_some());
    assert!(rt; Communities::of(&MANY[0..8]).is_some());
    assert!(rt; Communities::of(&MANY[0..9]).is_none());
    assert!(rt; Communities::of(&[7; 8]).is_some());
    assert!(rt; Communities::of(&[7; 9]).is_none());
    Ok(())
}

#[test]
fn no_ninth_community(rt: HostRuntime) -> Result<(), Fail> {
    let mut communities = there(Communities::of(&MANY[0..7]))?;
    assert!(rt; communities.add(8).is_ok());
    assert!(rt; communities.add(9).is_err());
    assert!(rt; communities.add(0).is_err());
    assert!(rt; communities.add(4).is_ok());
    assert_eq!(rt; communities.as_slice(), &MANY[0..8]);
    communities.remove(4);
    communities.remove(9);
    assert_eq!(rt; communities.as_slice(), [1, 2, 3, 5, 6, 7, 8].as_slice());
    assert!(rt; communities.add(0).is_ok());
    assert_eq!(rt; communities.as_slice(), [0, 1, 2, 3, 5, 6, 7, 8].as_slice());
    Ok(())
}

#[test]
fn removes_the_only_one(rt: HostRuntime) -> Result<(), Fail> {
    let mut communities = Communities::none();
    communities.remove(0);
    assert!(rt; communities.add(0).is_ok());
    communities.remove(0);
    assert_eq!(rt; communities.as_slice(), [0u32; 0].as_slice());
    Ok(())
}

#[test]
fn among(rt: HostRuntime) -> Result<(), Fail> {
    assert!(rt; !is_among(&[], 0));
    assert!(rt; is_among(&[0], 0));
    assert!(rt; !is_among(&[1], 0));
    assert!(rt; is_among(&MANY, 1));
    assert!(rt; is_among(&MANY, 33));
    assert!(rt; !is_among(&MANY, 34));
    Ok(())
}
