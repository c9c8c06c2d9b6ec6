// Bodies and documents worked by hand.
use crate::{
    ControlBodyFault, MetricBody, begin_list, end_list, metric_document, next_in_list,
    policy_document, policy_list, read_metric, read_metrics_of_resource, read_policy,
    read_resource, read_rule, resource_document, rule_document, rule_list,
};
use archive_policy::{Name, PolicyFault};
use series_model::MetricId;
use std::alloc::Global;
use std::test::Fail;

/// A fault in a word.
fn word(fault: ControlBodyFault) -> &'static str {
    match fault {
        ControlBodyFault::BadBody => "bad-body",
        ControlBodyFault::BadName => "bad-name",
        ControlBodyFault::BadSpan => "bad-span",
        ControlBodyFault::SpanRange => "span-range",
        ControlBodyFault::BadAggregation => "bad-aggregation",
        ControlBodyFault::Policy(PolicyFault::NoDefinition) => "no-definition",
        ControlBodyFault::Policy(PolicyFault::NotDividing { .. }) => "not-dividing",
        ControlBodyFault::Policy(PolicyFault::BackWindow) => "back-window",
        ControlBodyFault::Policy(_) => "another fault of a policy",
        ControlBodyFault::Memory => "memory",
    }
}

/// The document of the policy that a body asks for, or the fault.
fn policy_told(alloc: Global, body: &[u8]) -> Result<Vec<u8>, Fail> {
    let mut out = Vec::new(alloc);
    match read_policy(alloc, body) {
        Ok(policy) => policy_document(&policy, &mut out)?,
        Err(fault) => out.extend_from_slice(word(fault).as_bytes())?,
    }
    Ok(out)
}

/// Bodies of policies, and their documents or faults.
const POLICIES: [(&str, &str); 8] = [
    (
        r#"{"name":"p","back_window":0,"definition":[{"granularity":60,"points":10},{"granularity":300,"points":12}],"aggregation_methods":["mean","count","last","rate:sum","rate:last"]}"#,
        r#"{"aggregation_methods":["mean","count","last","rate:sum","rate:last"],"back_window":0,"definition":[{"granularity":"0:01:00","points":10,"timespan":"0:10:00"},{"granularity":"0:05:00","points":12,"timespan":"1:00:00"}],"name":"p"}"#,
    ),
    (
        r#"{"name":"p","definition":[{"granularity":"1s","timespan":"1 hour"},{"points":48,"timespan":"1 day"}]}"#,
        r#"{"aggregation_methods":["mean","min","max","sum","count"],"back_window":0,"definition":[{"granularity":"0:00:01","points":3600,"timespan":"1:00:00"},{"granularity":"0:30:00","points":48,"timespan":"1 day, 0:00:00"}],"name":"p"}"#,
    ),
    (
        r#" { "definition": [{"points":1,"granularity":"0.5"}], "name": "", "back_window": 1000, "name": "a\"\\\u0062", "aggregation_methods": ["max","max"] } "#,
        r#"{"aggregation_methods":["max"],"back_window":1000,"definition":[{"granularity":"0:00:00.500000000","points":1,"timespan":"0:00:00.500000000"}],"name":"a\"\\b"}"#,
    ),
    (
        r#"{"name":"p","definition":[{"granularity":60,"points":1},{"granularity":90,"points":1}]}"#,
        "not-dividing",
    ),
    (r#"{"name":"p","definition":[]}"#, "no-definition"),
    (
        r#"{"name":"p","definition":[],"back_window":1001}"#,
        "back-window",
    ),
    (
        r#"{"name":"p","definition":[],"aggregation_methods":["mean",5]}"#,
        "bad-aggregation",
    ),
    (
        r#"{"name":"p","definition":[{"granularity":0},{"granularity":"x"}],"aggregation_methods":["median"]}"#,
        "span-range",
    ),
];

#[test]
fn policies(rt: HostRuntime) -> Result<(), Fail> {
    for (body, told) in POLICIES {
        let found = policy_told(rt.alloc(), body.as_bytes())?;
        assert_eq!(rt; found.as_slice(), told.as_bytes(), "{body}");
    }
    Ok(())
}

/// Bodies of a policy `p` with this as its one definition's granularity, and their faults.
const SPANS: [(&str, &str); 12] = [
    ("-0", "bad-span"),
    ("-60", "bad-span"),
    ("60.0", "bad-span"),
    ("6e1", "bad-span"),
    ("18446744073709551616", "bad-span"),
    ("null", "bad-span"),
    ("{}", "bad-span"),
    ("[]", "bad-span"),
    ("\"\"", "bad-span"),
    ("18446744073709551615", "span-range"),
    ("\"9000000001\"", "span-range"),
    ("1e999", "bad-body"),
];

#[test]
fn spans(rt: HostRuntime) -> Result<(), Fail> {
    for (span, told) in SPANS {
        let body = format!(in rt.alloc();
            "{{\"name\":\"p\",\"definition\":[{{\"timespan\":\"x\",\"granularity\":{span}}}]}}"
        )?;
        let found = policy_told(rt.alloc(), body.as_bytes())?;
        assert_eq!(rt; found.as_slice(), told.as_bytes(), "{span}");
    }
    Ok(())
}

/// Bodies that are refused as a whole, whatever else is wrong with them.
const BAD_BODIES: [&str; 22] = [
    "",
    "null",
    "[]",
    r#"{"name":"p"}"#,
    r#"{"definition":[]}"#,
    r#"{"name":"p","definition":[]} x"#,
    r#"{"name":"p","definition":{}}"#,
    r#"{"name":"p","definition":[[]]}"#,
    r#"{"name":"","definition":[{"granularity":"x","rate":1}]}"#,
    r#"{"name":"","definition":[],"points":1}"#,
    r#"{"name":"","definition":[],"Name":"p"}"#,
    r#"{"name":{"name":"p"},"definition":[]}"#,
    r#"{"name":[[{"a":0}]],"definition":[]}"#,
    r#"{"name":"","definition":[{"points":-0}]}"#,
    r#"{"name":"","definition":[{"points":"1"}]}"#,
    r#"{"name":"","definition":[{"points":null}]}"#,
    r#"{"name":"","definition":[{"points":18446744073709551616}]}"#,
    r#"{"name":"","definition":[],"back_window":1.0}"#,
    r#"{"name":"","definition":[],"back_window":-1}"#,
    r#"{"name":"","definition":[],"back_window":null}"#,
    r#"{"name":"","definition":[],"aggregation_methods":"mean"}"#,
    r#"{"name":"","definition":[],"aggregation_methods":null}"#,
];

#[test]
fn bad_bodies(rt: HostRuntime) -> Result<(), Fail> {
    for body in BAD_BODIES {
        let found = policy_told(rt.alloc(), body.as_bytes())?;
        assert_eq!(rt; found.as_slice(), b"bad-body".as_slice(), "{body}");
    }
    let found = policy_told(rt.alloc(), b"{\"name\":\"\xFF\",\"definition\":[]}")?;
    assert_eq!(rt; found.as_slice(), b"bad-body".as_slice());
    Ok(())
}

/// Bodies of rules, and their documents or faults.
const RULES: [(&str, &str); 5] = [
    (
        r#"{"name":"r","metric_pattern":"disk.*","archive_policy_name":"low"}"#,
        r#"{"archive_policy_name":"low","metric_pattern":"disk.*","name":"r"}"#,
    ),
    (
        r#"{"name":"r","metric_pattern":"/","archive_policy_name":"low"}"#,
        "bad-name",
    ),
    (
        r#"{"name":null,"metric_pattern":"*","archive_policy_name":"low"}"#,
        "bad-name",
    ),
    (r#"{"name":"r","metric_pattern":"*"}"#, "bad-body"),
    (
        r#"{"name":"r","metric_pattern":"*","archive_policy_name":"low","unit":"B"}"#,
        "bad-body",
    ),
];

#[test]
fn rules(rt: HostRuntime) -> Result<(), Fail> {
    for (body, told) in RULES {
        let mut out = Vec::new(rt.alloc());
        match read_rule(rt.alloc(), body.as_bytes()) {
            Ok(rule) => rule_document(&rule, &mut out)?,
            Err(fault) => out.extend_from_slice(word(fault).as_bytes())?,
        }
        assert_eq!(rt; out.as_slice(), told.as_bytes(), "{body}");
    }
    Ok(())
}

/// The document of a metric 1 of store 1 that a body asks for, of policy `p` where it names none.
fn metric_told(alloc: Global, body: &[u8]) -> Result<Vec<u8>, Fail> {
    let id = MetricId(0x1_0000_8000_8000_0000_0000_0001);
    let mut out = Vec::new(alloc);
    match read_metric(alloc, body) {
        Ok(asked) => push_metric(id, asked, &mut out)?,
        Err(fault) => out.extend_from_slice(word(fault).as_bytes())?,
    }
    Ok(out)
}

fn push_metric(id: MetricId, asked: MetricBody, out: &mut Vec<u8>) -> Result<(), Fail> {
    let usual = Name::of(*out.allocator(), b"p")?;
    let policy = asked.policy.unwrap_or(usual);
    metric_document(id, &policy, &asked.name, &asked.unit, asked.resource, out)?;
    Ok(())
}

/// Bodies of metrics, and their documents or faults.
const METRICS: [(&str, &str); 10] = [
    (
        r#"{"archive_policy_name":"p"}"#,
        r#"{"archive_policy_name":"p","id":"00000001-0000-8000-8000-000000000001","name":null,"resource_id":null,"unit":null}"#,
    ),
    (r#"{"unit":"B/s","archive_policy_name":"p"}"#, "bad-name"),
    (
        r#"{"archive_policy_name":null,"name":null,"unit":null,"resource_id":null}"#,
        r#"{"archive_policy_name":"p","id":"00000001-0000-8000-8000-000000000001","name":null,"resource_id":null,"unit":null}"#,
    ),
    (
        r#"{"archive_policy_name":"low","name":"cpu","unit":"%","resource_id":"ABCDEF0123456789ABCDEF0123456789"}"#,
        r#"{"archive_policy_name":"low","id":"00000001-0000-8000-8000-000000000001","name":"cpu","resource_id":"abcdef01-2345-6789-abcd-ef0123456789","unit":"%"}"#,
    ),
    (
        r#"{"resource_id":"abcdef01-2345-6789-abcd-ef0123456789"}"#,
        "bad-body",
    ),
    (
        r#"{"resource_id":"abcdef01-2345-6789-abcd-ef0123456789","name":null,"unit":""}"#,
        "bad-body",
    ),
    (r#"{"resource_id":"9","name":"cpu"}"#, "bad-body"),
    (r#"{"resource_id":9,"name":"cpu"}"#, "bad-body"),
    (r#"{"id":"cpu"}"#, "bad-body"),
    (r#"{"name":7}"#, "bad-name"),
];

#[test]
fn metrics(rt: HostRuntime) -> Result<(), Fail> {
    for (body, told) in METRICS {
        let found = metric_told(rt.alloc(), body.as_bytes())?;
        assert_eq!(rt; found.as_slice(), told.as_bytes(), "{body}");
    }
    Ok(())
}

#[test]
fn resources(rt: HostRuntime) -> Result<(), Fail> {
    let alloc = rt.alloc();
    let body = br#"{"id":"{00000000-0000-0000-0000-00000000000A}"}"#;
    assert_eq!(rt; read_resource(alloc, body), Ok(10));
    let cases = [
        r#"{}"#,
        r#"{"id":null}"#,
        r#"{"id":"ten"}"#,
        r#"{"id":"00000000-0000-0000-0000-00000000000a","metrics":{}}"#,
    ];
    for body in cases {
        let found = read_resource(alloc, body.as_bytes());
        assert_eq!(rt; found, Err(ControlBodyFault::BadBody), "{body}");
    }
    let mut named = Vec::new(alloc);
    named.push((Name::of(alloc, b"a")?, MetricId(1)))?;
    named.push((Name::of(alloc, b"b\"")?, MetricId(2)))?;
    let mut out = Vec::new(alloc);
    resource_document(10, &named, &mut out)?;
    let told =
        br#"{"id":"00000000-0000-0000-0000-00000000000a","metrics":{"a":"00000000-0000-0000-0000-000000000001","b\"":"00000000-0000-0000-0000-000000000002"},"type":"generic"}"#;
    assert_eq!(rt; out.as_slice(), told.as_slice());
    Ok(())
}

/// Bodies of metrics of a resource, and their names with those of their policies, or the fault.
const NAMED: [(&str, &str); 8] = [
    ("{}", ""),
    (
        r#"{"b":{"archive_policy_name":"low"},"a":{},"B":{},"b":{}}"#,
        "B - a - b - ",
    ),
    (r#"{"b":{"archive_policy_name":"low"}}"#, "b low "),
    (r#"{"":{}}"#, "bad-name"),
    (r#"{"a":{"archive_policy_name":null}}"#, "bad-name"),
    (r#"{"/":{},"b":{"unit":"B"}}"#, "bad-body"),
    (r#"{"a":null}"#, "bad-body"),
    ("[]", "bad-body"),
];

fn named_told(alloc: Global, body: &[u8]) -> Result<Vec<u8>, Fail> {
    let mut out = Vec::new(alloc);
    match read_metrics_of_resource(alloc, body) {
        Ok(metrics) => {
            for (name, policy) in &metrics {
                out.extend_from_slice(name.bytes())?;
                out.push(b' ')?;
                match policy {
                    Some(policy) => out.extend_from_slice(policy.bytes())?,
                    None => out.push(b'-')?,
                }
                out.push(b' ')?;
            }
        }
        Err(fault) => out.extend_from_slice(word(fault).as_bytes())?,
    }
    Ok(out)
}

#[test]
fn metrics_of_resources(rt: HostRuntime) -> Result<(), Fail> {
    for (body, told) in NAMED {
        let found = named_told(rt.alloc(), body.as_bytes())?;
        assert_eq!(rt; found.as_slice(), told.as_bytes(), "{body}");
    }
    Ok(())
}

#[test]
fn lists(rt: HostRuntime) -> Result<(), Fail> {
    let alloc = rt.alloc();
    let mut out = Vec::new(alloc);
    policy_list(&[], &mut out)?;
    let body = br#"{"name":"r","metric_pattern":"*","archive_policy_name":"p"}"#;
    let mut rules = Vec::new(alloc);
    rules.push(read_rule(alloc, body)?)?;
    rules.push(read_rule(alloc, body)?)?;
    rule_list(&rules, &mut out)?;
    begin_list(&mut out)?;
    for count in 0..2 {
        next_in_list(count, &mut out)?;
        resource_document(0, &[], &mut out)?;
    }
    end_list(&mut out)?;
    let rule = r#"{"archive_policy_name":"p","metric_pattern":"*","name":"r"}"#;
    let resource = r#"{"id":"00000000-0000-0000-0000-000000000000","metrics":{},"type":"generic"}"#;
    let told = format!(in alloc; "[][{rule},{rule}][{resource},{resource}]")?;
    assert_eq!(rt; out.as_slice(), told.as_bytes());
    Ok(())
}
