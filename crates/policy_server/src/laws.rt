//! The laws of queries.

ghost use Rattle.policy_server.specs.Laws.{QueriesAreRead, OnlyQueriesAreRead};

/// What is read is a query by the grammar, `state ( NAME NAME* )*`, and each query is read.
pub fn query_laws()
    ensures read { QueriesAreRead }
    ensures only { OnlyQueriesAreRead }
{}
