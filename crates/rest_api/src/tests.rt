// Requests and a connection over a small front, worked by hand.
ghost use Rattle.std.specs.Prelude.{[]};
ghost use Rattle.front_api.specs.Bench.{Duty};

use crate::{Api, ConnEnd, handle, serve_stream};
use archive_policy::Name;
use front_api::{
    AnswerFault, Command, ControlFault, Front, Histories, MetricDoc, Reply, SackFault,
};
use gno_io::{MemSink, MemSource};
use gno_num::List;
use rest_replies::write_reply_line;
use series_model::{Answer, Batch, MetricId, Query};
use std::alloc::Global;
use std::test::Fail;

/// A front with one metric, whose number is 1, in one resource, whose number is 2. Its histories tell
/// nothing.
#[derive(Drop)]
struct Desk {
    posts: u64,
}

impl Histories for Desk {
    type Made = ();

    ghost stands = { λ _ _. ⊥ };

    ghost sack_count = { λ _. 1 };

    ghost duty = { λ _. record { refusals = record { stale = 0; starved = 0; faults = 0 }; last_claims = [] } };

    ghost made = { λ _. tt };
}

impl Front for Desk {
    fn post(&mut self, _alloc: Global, metric: MetricId, _batch: &Batch) -> Result<u64, SackFault> {
        if metric.0 != 1 {
            return Err(SackFault::Unknown);
        }
        self.posts = self.posts.saturating_add(1);
        Ok(self.posts)
    }

    fn refresh(&mut self, _alloc: Global, _metric: MetricId) -> Result<u64, SackFault> {
        Ok(self.posts)
    }

    fn answer(
        &mut self,
        alloc: Global,
        _metric: MetricId,
        _query: &Query,
    ) -> Result<Answer, AnswerFault> {
        Ok(Answer::new(alloc))
    }

    fn drain(&mut self, _alloc: Global) -> Result<u64, SackFault> {
        Ok(0)
    }

    fn control(&mut self, alloc: Global, command: &Command) -> Result<Reply, ControlFault> {
        match command {
            Command::ListMetrics => documents(alloc),
            Command::GetResource(2) => Ok(Reply::Done),
            Command::AddMetric { .. } => documents(alloc),
            Command::FindMetric { .. } => documents(alloc),
            Command::DropMetric(_) => Ok(Reply::Done),
            Command::AddRule(_) => Err(ControlFault::PolicyUnknown),
            _ => Err(ControlFault::ResourceUnknown),
        }
    }
}

fn documents(alloc: Global) -> Result<Reply, ControlFault> {
    let (Ok(policy), Ok(name)) = (Name::of(alloc, b"p"), Name::of(alloc, b"m")) else {
        return Err(ControlFault::Memory);
    };
    let doc = MetricDoc {
        id: MetricId(1),
        policy,
        name: Some(name),
        unit: None,
        resource: Some(2),
    };
    match Vec::from_array(alloc, [doc]) {
        Ok(docs) => Ok(Reply::Metrics(List::of(docs))),
        Err(_) => Err(ControlFault::Memory),
    }
}

const ONE: &str =
    "{\"archive_policy_name\":\"p\",\"id\":\"00000000-0000-0000-0000-000000000001\",\"name\":\"m\",\"resource_id\":\"00000000-0000-0000-0000-000000000002\",\"unit\":null}";

const RESOURCE: &str = "/v1/resource/generic/00000000-0000-0000-0000-000000000002/metric";

#[test]
fn requests(rt: HostRuntime) -> Result<(), Fail> {
    let alloc = rt.alloc();
    let api = Api::new(alloc)?;
    let mut desk = Desk { posts: 0 };
    let measures = "/v1/metric/00000000-0000-0000-0000-000000000001/measures";
    let cases = [
        ("GET", "/v1/other", "", "404 {\"error\":\"no-route\"}\n"),
        ("PUT", "/v1/metric?x", "", "405 {\"error\":\"method\"}\n"),
        ("GET", "/v1/metric?x", "", "400 {\"error\":\"bad-query\"}\n"),
        ("POST", measures, "[]", "202\n"),
        (
            "POST",
            measures,
            "[",
            "400 {\"at\":1,\"error\":\"syntax\"}\n",
        ),
        ("GET", measures, "", "200 []\n"),
        (
            "DELETE",
            "/v1/metric/%",
            "",
            "404 {\"error\":\"metric-unknown\"}\n",
        ),
        (
            "POST",
            "/v1/archive_policy_rule",
            "{}",
            "400 {\"error\":\"bad-body\"}\n",
        ),
        (
            "POST",
            "/v1/batch/metrics/measures",
            "{\"00000000-0000-0000-0000-000000000001\":[],\"00000000-0000-0000-0000-000000000009\":[]}",
            "404 {\"error\":\"metric-unknown\",\"stored\":1}\n",
        ),
    ];
    for (method, target, body, told) in cases {
        let answer = handle(
            &api,
            &mut desk,
            alloc,
            method.as_bytes(),
            target.as_bytes(),
            body.as_bytes(),
        );
        let mut line = Vec::new(alloc);
        write_reply_line(&answer, &mut line)?;
        assert_eq!(rt; line.as_slice(), told.as_bytes(), "{target}");
    }
    Ok(())
}

#[test]
fn metrics_of_a_resource(rt: HostRuntime) -> Result<(), Fail> {
    let alloc = rt.alloc();
    let api = Api::new(alloc)?;
    let mut desk = Desk { posts: 0 };
    let answer = handle(&api, &mut desk, alloc, b"GET", RESOURCE.as_bytes(), b"");
    let told = format!(in alloc; "[{ONE}]")?;
    assert_eq!(rt; answer.body.as_slice(), told.as_bytes());
    let body = b"{\"a\":{},\"b\":{}}";
    let answer = handle(&api, &mut desk, alloc, b"POST", RESOURCE.as_bytes(), body);
    let told = format!(in alloc; "[{ONE},{ONE}]")?;
    assert_eq!(rt; answer.body.as_slice(), told.as_bytes());
    Ok(())
}

#[test]
fn a_connection(rt: HostRuntime) -> Result<(), Fail> {
    let alloc = rt.alloc();
    let api = Api::new(alloc)?;
    let mut desk = Desk { posts: 0 };
    let input =
        b"POST /v1/metric/00000000-0000-0000-0000-000000000001/measures HTTP/1.1\r\nHost: a\r\nContent-Length: 2\r\nExpect: 100-continue\r\n\r\n[]HEAD /v1/metric HTTP/1.1\r\nHost: a\r\n\r\nGET /v1/metric/00000000-0000-0000-0000-000000000001/measures HTTP/1.0\r\n\r\nGET";
    let mut source = MemSource::new(Vec::from_slice(alloc, input)?, Vec::new(alloc));
    let mut sink = MemSink::new(alloc, Vec::new(alloc));
    let end = serve_stream(&api, &mut desk, alloc, &mut source, &mut sink);
    assert_eq!(rt; end, ConnEnd::Closed);
    let told =
        b"HTTP/1.1 100 Continue\r\n\r\nHTTP/1.1 202 Accepted\r\nContent-Length: 0\r\n\r\nHTTP/1.1 405 Method Not Allowed\r\nAllow: GET, POST\r\nContent-Length: 0\r\n\r\nHTTP/1.1 200 OK\r\nConnection: close\r\nContent-Type: application/json\r\nContent-Length: 2\r\n\r\n[]";
    assert_eq!(rt; sink.bytes(), told.as_slice());
    Ok(())
}
