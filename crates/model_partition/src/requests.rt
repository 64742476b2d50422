//! Numbers of requests.
ghost use Rattle.std.specs.Prelude.{◌≡◌};
ghost use Rattle.model_partition.specs.Range.{request};

use crate::server_context::ServerContext;
use wire::ReqNo;

/// The number of a server's next request, which its count stands for.
pub fn next_request(context: &ServerContext) -> ReqNo
    ensures { result ≡ request context.now }
{
    ReqNo::Server {
        server: context.server,
        session: context.session,
        count: context.count,
    }
}
