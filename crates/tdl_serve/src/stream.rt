ghost use Rattle.std.specs.Prelude.{◌≡◌};
ghost use Rattle.gs_port.specs.Counts.{count_if};
ghost use Rattle.gs_port.specs.Outputs.{Writes};
ghost use Rattle.tdl_lines.specs.Statuses.{is_status};
ghost use Rattle.tdl_serve.specs.Resolutions.{Resolved, StreamServed, status_of, stream_of};

use gs_http::{Served, Site, serve_one};
use gs_port::{Pair, Sink, Source};
use std::alloc::Global;
use tdl_lines::Status;

/// Returns the status of a stream, by how serving it ended.
fn status_of(served: Served) -> Status
    ensures { result ≡ status_of served }
{
    match served {
        Served::Done => Status::Done,
        Served::ReadFault => Status::ReadFault,
        Served::WriteFault => Status::WriteFault,
        Served::Memory => Status::Memory,
    }
}

/// Answers the heads of the input in their order, up to its end or to the first reply that ends the connection. `serve_one`
/// does the same. With `Done`, exactly all replies were written. `ReadFault` is returned only if the input's count rose, and
/// `WriteFault` only if the output's did. After these and after `Memory`, a prefix of the replies was written. No other status
/// is returned.
pub fn resolve<S: Source, K: Sink>(
    alloc: Global,
    site: &Site<'_>,
    input: &mut S,
    output: &mut K,
) -> Status
    ensures written { Writes (is_status result Status.WriteFault) (K.state output.old) (K.state output.new)
        (λ out. Resolved site.now (S.state input.old).left out result) }
    ensures served { StreamServed site.now result
        (stream_of (S.state input.old) (K.state output.old))
        (stream_of (S.state input.new) (K.state output.new)) }
    ensures count { (S.state input.new).errors
        ≡ count_if (is_status result Status.ReadFault) (S.state input.old).errors }
{
    let mut conn = Pair::new(input, output);
    let served = serve_one(alloc, &mut conn, site.table, site.store, site.settings);
    status_of(served)
}
