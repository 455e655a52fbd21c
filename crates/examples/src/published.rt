// Rows of the table of published parameter sets.
use cipher::params::Params;
use cipher::published::published;
use std::test::Fail;

#[test]
fn the_first(rt: HostRuntime) -> Result<(), Fail> {
    let p = published(0).ok_or("no row 0")?;
    let params = Params {
        n: 256,
        k: 80,
        m: 49,
        r: 12,
    };
    assert_eq!(rt; p.params, params);
    assert_eq!(rt; p.gates, 1764);
    Ok(())
}

#[test]
fn the_last(rt: HostRuntime) -> Result<(), Fail> {
    let p = published(8).ok_or("no row 8")?;
    let params = Params {
        n: 256,
        k: 256,
        m: 10,
        r: 52,
    };
    assert_eq!(rt; p.params, params);
    assert_eq!(rt; p.gates, 1560);
    Ok(())
}

#[test]
fn no_other(rt: HostRuntime) {
    assert!(rt; published(9).is_none());
}
