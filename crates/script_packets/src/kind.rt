//! The kinds of packets by name.
use wire::{AppendBody, Body, CheckBody, MapBody, ReadBody, SealBody, StreamBody, TableBody};

fn append_kind(body: &AppendBody) -> &'static str {
    match body {
        AppendBody::Append { .. } => "Append",
        AppendBody::Put { .. } => "Put",
        AppendBody::Have { .. } => "Have",
        AppendBody::Appended { .. } => "Appended",
        AppendBody::Refused { .. } => "Refused",
    }
}

fn check_kind(body: &CheckBody) -> &'static str {
    match body {
        CheckBody::Check { .. } => "Check",
        CheckBody::Probe { .. } => "Probe",
        CheckBody::Probed { .. } => "Probed",
        CheckBody::Checked { .. } => "Checked",
    }
}

fn seal_kind(body: &SealBody) -> &'static str {
    match body {
        SealBody::Make { .. } => "Make",
        SealBody::SealExtent { .. } => "SealExtent",
        SealBody::SealedIs { .. } => "SealedIs",
        SealBody::Freeze { .. } => "Freeze",
        SealBody::Frozen { .. } => "Frozen",
        SealBody::Seal { .. } => "Seal",
        SealBody::IsSealed { .. } => "IsSealed",
        SealBody::Short { .. } => "Short",
        SealBody::SendTail { .. } => "SendTail",
        SealBody::Tail { .. } => "Tail",
    }
}

fn read_kind(body: &ReadBody) -> &'static str {
    match body {
        ReadBody::ReadAt { .. } => "ReadAt",
        ReadBody::Bytes { .. } => "Bytes",
        ReadBody::ReadGroups { .. } => "ReadGroups",
        ReadBody::Groups { .. } => "Groups",
    }
}

fn stream_kind(body: &StreamBody) -> &'static str {
    match body {
        StreamBody::CreateStream { .. } => "CreateStream",
        StreamBody::Created { .. } => "Created",
        StreamBody::OpenStreams { .. } => "OpenStreams",
        StreamBody::Opened { .. } => "Opened",
        StreamBody::Confirm { .. } => "Confirm",
        StreamBody::Confirmed { .. } => "Confirmed",
        StreamBody::Extend { .. } => "Extend",
        StreamBody::Extended { .. } => "Extended",
        StreamBody::Trim { .. } => "Trim",
        StreamBody::Trimmed { .. } => "Trimmed",
        StreamBody::MultiModify { .. } => "MultiModify",
        StreamBody::Modified { .. } => "Modified",
    }
}

fn map_kind(body: &MapBody) -> &'static str {
    match body {
        MapBody::Assign { .. } => "Assign",
        MapBody::Renew { .. } => "Renew",
        MapBody::Route { .. } => "Route",
        MapBody::RouteIs { .. } => "RouteIs",
        MapBody::BeginSplit { .. } => "BeginSplit",
        MapBody::SplitBegun { .. } => "SplitBegun",
        MapBody::CompleteSplit { .. } => "CompleteSplit",
        MapBody::SplitDone { .. } => "SplitDone",
        MapBody::BeginMerge { .. } => "BeginMerge",
        MapBody::MergeBegun { .. } => "MergeBegun",
        MapBody::CompleteMerge { .. } => "CompleteMerge",
        MapBody::MergeDone { .. } => "MergeDone",
    }
}

fn table_kind(body: &TableBody) -> &'static str {
    match body {
        TableBody::Transact { .. } => "Transact",
        TableBody::Committed { .. } => "Committed",
        TableBody::Get { .. } => "Get",
        TableBody::Value { .. } => "Value",
    }
}

/// The name of a body's kind, as docs/MODEL.md has it.
pub fn kind_of(body: &Body) -> &'static str {
    match body {
        Body::Append(body) => append_kind(body),
        Body::Check(body) => check_kind(body),
        Body::Seal(body) => seal_kind(body),
        Body::Read(body) => read_kind(body),
        Body::Stream(body) => stream_kind(body),
        Body::Map(body) => map_kind(body),
        Body::Table(body) => table_kind(body),
    }
}
