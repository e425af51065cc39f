//! The parameters of a request.

ghost use Rattle.std.specs.Prelude.{◌≡◌};
ghost use Rattle.session_requests.specs.Meant.{params_of};

use dq_base::Items;
use std::alloc::Global;
use wire_msgs::Request;
use wire_words::Value;

/// The parameters of a request, which are moved; none if it has no place for them.
pub(crate) fn into_params(alloc: Global, request: Request) -> Items<Value>
    ensures { result ≡ params_of request }
{
    match request {
        Request::Exec { params, .. } => params,
        Request::Query { params, .. } => params,
        Request::ExecSql { params, .. } => params,
        Request::QuerySql { params, .. } => params,
        _ => Items::new(Vec::new(alloc)),
    }
}
