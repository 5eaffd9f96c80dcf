//! What a bench prints.

use bench::Plan;
use cli::bench;
use std::test::Fail;

#[test]
fn writers_agree(rt: HostRuntime) -> Result<(), Fail> {
    let rows = [
        (1, 2, "agree 1 replicas 4 operations\n"),
        (2, 1, "agree 2 replicas 4 operations\n"),
    ];
    for (replicas, ops, wanted) in rows {
        let mut out = Vec::new(rt.alloc());
        let mut faults = Vec::new(rt.alloc());
        let status = bench(
            &rt,
            rt.alloc(),
            Plan::new(replicas, 2, ops, 65_536)?,
            &mut out,
            &mut faults,
        );
        assert_eq!(rt; status, 0);
        assert!(rt; out.as_slice() == wanted.as_bytes());
        assert!(rt; faults.is_empty());
    }
    Ok(())
}
