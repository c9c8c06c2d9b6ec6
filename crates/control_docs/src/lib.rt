//! The JSON documents by which policies, rules, metrics and resources are asked for and shown:
//! bodies read by their rules, with the first fault, and the text of the documents.
#![tactic(auto)]

mod body;
mod documents;
mod fault;
mod laws;
mod lists;
mod member;
mod metric;
mod policy;
mod resource;
mod rule;
mod shape;
#[cfg(test)]
mod tests;
mod texts;

pub use documents::{
    metric_document, policy_document, policy_list, resource_document, rule_document, rule_list,
};
pub use fault::ControlBodyFault;
pub use laws::{
    all_that_stands_is_given, documents_are_json, names_are_names, policy_again,
    policy_faults_are_first, rule_again,
};
pub use lists::{begin_list, end_list, lists_are_written, next_in_list};
pub use metric::{MetricBody, read_metric};
pub use policy::read_policy;
pub use resource::{read_metrics_of_resource, read_resource};
pub use rule::read_rule;
