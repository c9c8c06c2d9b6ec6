// Worked examples of rules.
use crate::{Rule, choose, matches};
use archive_policy::Name;
use std::alloc::Global;
use std::test::Fail;

#[test]
fn patterns(rt: HostRuntime) -> Result<(), Fail> {
    let cases: [(&str, &str, bool); 18] = [
        ("*", "", true),
        ("", "", true),
        ("", "a", false),
        ("*", "disk.io", true),
        ("a*b*", "ab", true),
        ("a*b", "aba", false),
        ("a*b", "abab", true),
        ("ab", "abc", false),
        ("abc", "ab", false),
        ("**", "x", true),
        ("a**b", "ab", true),
        ("*aab", "aaab", true),
        ("*ab*ba*", "aba", false),
        ("*ab*ba*", "abba", true),
        ("disk.*.r", "disk.io.r", true),
        ("*.io.rat*", "disk.io.r", false),
        ("x*", "*", false),
        ("?", "a", false),
    ];
    for (pattern, name, wanted) in cases {
        assert_eq!(rt; matches(pattern.as_bytes(), name.as_bytes()), wanted);
    }
    Ok(())
}

fn rules(alloc: Global, given: &[(&str, &str)]) -> Result<Vec<Rule>, Fail> {
    let mut made = Vec::new(alloc);
    for (name, pattern) in given {
        made.push(Rule {
            name: Name::of(alloc, name.as_bytes())?,
            pattern: Name::of(alloc, pattern.as_bytes())?,
            policy: Name::of(alloc, b"p")?,
        })?;
    }
    Ok(made)
}

#[test]
fn choices(rt: HostRuntime) -> Result<(), Fail> {
    let cases: [(&[(&str, &str)], &str, Option<usize>); 6] = [
        (
            &[("a", "disk.*"), ("b", "disk.io.*")],
            "disk.io.rate",
            Some(1),
        ),
        (
            &[("d", "disk.*.r"), ("c", "*.io.rat*")],
            "disk.io.r",
            Some(0),
        ),
        (&[("f", "disk.*"), ("e", "disk.*")], "disk.x", Some(1)),
        (&[("a", "disk.*"), ("b", "net.*")], "cpu", None),
        (&[], "cpu", None),
        // of equal names the first
        (&[("a", "c*"), ("a", "*u"), ("aa", "cp")], "cpu", Some(0)),
    ];
    for (given, name, wanted) in cases {
        let rules = rules(rt.alloc(), given)?;
        assert_eq!(rt; choose(rules.as_slice(), name.as_bytes()), wanted);
    }
    Ok(())
}
