use crate::{each_line, expect, first_unmet};
use std::alloc::Global;
use std::test::Fail;

fn copy_of(alloc: Global, text: &str) -> Result<String, Fail> {
    Ok(String::from_str(alloc, text)?)
}

#[test]
fn a_table_is_gone_over(rt: HostRuntime) -> Result<(), Fail> {
    let alloc = rt.alloc();
    let cases: [(&'static str, Option<&'static str>); 5] = [
        ("", None),
        ("one => one\n => \na b => a b", None),
        ("one => two", Some("one => two")),
        ("a => a\nb => c\nd => e", Some("b => c")),
        ("a => a\nwithout", Some("without")),
    ];
    for (table, wanted) in cases {
        let found = first_unmet(table, |given| copy_of(alloc, given))?;
        expect(found == wanted, table)?;
    }
    each_line("one => one", |given| copy_of(alloc, given))
}
