//! What a caller is told: the replies to a script, or its first bad line.

use scripts::replies_to;

#[test]
fn replies_or_the_first_bad_line(rt: HostRuntime) {
    const GOOD: &[u8] = br#"["world",[[1,[1],1,1,4,4,10]]]
["push",0,0,["assign",["a"],1]]
["step",0]
"#;
    const BAD: &[u8] = br#"["world",[[1,[1],1,1,4,4,10]]]
["push",0,0,["assign",["a"],1.5]]
"#;
    match replies_to(rt.alloc(), GOOD) {
        Ok(replies) => assert_eq!(rt;
            replies.lines.as_str(),
            "[\"ticket\",1]\n[\"published\",1]\n"
        ),
        Err(why) => panic!(rt; "{why}"),
    }
    match replies_to(rt.alloc(), BAD) {
        Ok(_) => panic!(rt; "a number that isn't whole is taken"),
        Err(why) => {
            let told = format!(in rt.alloc(); "{why}").expect(&rt, "memory");
            assert_eq!(rt; told.as_str(), "line 2: E21");
        }
    }
}
