//! The copy of a call of the partition map, of its answer, and of its words to a server.
ghost use Rattle.std.specs.Prelude.{◌≡◌, IfOk};

use std::alloc::AllocError;
use wire::MapBody;

/// The same again, which shares its key. An error is out of memory (22).
pub(crate) fn map_body(body: &MapBody) -> Result<MapBody, AllocError>
    ensures { IfOk result (λ copy. copy ≡ body.now) }
{
    match body {
        MapBody::Assign {
            range,
            generation,
            until,
        } => Ok(MapBody::Assign {
            range: *range,
            generation: *generation,
            until: *until,
        }),
        MapBody::Renew {
            range,
            generation,
            until,
        } => Ok(MapBody::Renew {
            range: *range,
            generation: *generation,
            until: *until,
        }),
        MapBody::Route { key, request } => {
            let key = key.clone()?;
            Ok(MapBody::Route {
                key,
                request: *request,
            })
        }
        MapBody::RouteIs {
            request,
            range,
            server,
        } => Ok(MapBody::RouteIs {
            request: *request,
            range: *range,
            server: *server,
        }),
        MapBody::BeginSplit {
            range,
            generation,
            key,
            request,
        } => {
            let key = key.clone()?;
            Ok(MapBody::BeginSplit {
                range: *range,
                generation: *generation,
                key,
                request: *request,
            })
        }
        MapBody::SplitBegun { request, low, high } => Ok(MapBody::SplitBegun {
            request: *request,
            low: *low,
            high: *high,
        }),
        MapBody::CompleteSplit {
            range,
            generation,
            request,
        } => Ok(MapBody::CompleteSplit {
            range: *range,
            generation: *generation,
            request: *request,
        }),
        MapBody::SplitDone { request } => Ok(MapBody::SplitDone { request: *request }),
        MapBody::BeginMerge {
            left,
            left_generation,
            right,
            right_generation,
            request,
        } => Ok(MapBody::BeginMerge {
            left: *left,
            left_generation: *left_generation,
            right: *right,
            right_generation: *right_generation,
            request: *request,
        }),
        MapBody::MergeBegun { request, range } => Ok(MapBody::MergeBegun {
            request: *request,
            range: *range,
        }),
        MapBody::CompleteMerge {
            left,
            left_generation,
            right,
            right_generation,
            request,
        } => Ok(MapBody::CompleteMerge {
            left: *left,
            left_generation: *left_generation,
            right: *right,
            right_generation: *right_generation,
            request: *request,
        }),
        MapBody::MergeDone { request } => Ok(MapBody::MergeDone { request: *request }),
    }
}
