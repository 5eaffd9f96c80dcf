//! Files that aren't a journal, or aren't one any more: they stay as they are.

use super::opening::live;
use super::*;
use disks::{Breaks, Disk};
use ids::Refusal;
use notebook::{Fault, Unfit};

/// A damaged second line, one that is missing, and files of other kinds: one with line feeds, one without any.
#[test]
fn a_damaged_file_stays_as_it_is(rt: HostRuntime) -> Result<(), Fail> {
    const ROWS: [(&str, u64); 4] = [
        (
            r#"["own",[1,1],["assign",["l"],[]]]
["own",[2,1],["insert",["l",0],"x"
["own",[3,1],["delete",["l",1]]]
"#,
            2,
        ),
        (
            r#"["own",[1,1],["assign",["l"],[]]]
["op",[2,2],[[1,1]],[["m",0]],"a",["a",2]]
milk"#,
            3,
        ),
        ("milk\neggs\n", 1),
        ("milk", 1),
    ];
    let alloc = rt.alloc();
    for (bytes, line) in ROWS {
        let disk = Disk::of(alloc, bytes.as_bytes(), Breaks::Never)?;
        let (disk, told) = live(&rt, alloc, 1, disk, &[])?;
        let want = Fault::Damaged {
            line,
            why: Unfit::Refused(Refusal::BadLine),
        };
        assert_eq!(rt; told, Err(want));
        assert_eq!(rt; disk.bytes(), bytes.as_bytes());
        assert_eq!(rt; disk.calls(), 1, "nothing but the read");
    }
    Ok(())
}
