// What a log holds, as a person on call reads it.
use super::fault;
use entry::{Ballot, LogIndex, Refusal, StopSign};
use state_cache::IndexRecord;
use std::io;

// The bytes that the lines of a full log may have.
const OUT: usize = entry::ENTRIES * text::OUTPUT_LINE;

fn say_ballot(rt: &impl Print, label: &str, b: Ballot) -> io::Result<()> {
    println!(rt;
        "{label} config_id {}, n {}, priority {}, pid {}",
        b.config_id, b.n, b.priority, b.pid
    )
}

// The lines of n entries, the first `decided` of which are decided.
fn say_changes(
    rt: &impl Print,
    label: &str,
    words: &[u64],
    n: usize,
    decided: usize,
) -> io::Result<()> {
    println!(rt; "{label} {n}")?;
    if words.len() / entry::WIDTH < n {
        return Ok(());
    }
    if entry::ENTRIES < n {
        return Ok(());
    }
    let mut out = [0u8; OUT];
    let used = text::inner::put_run(&mut out, 0, words, n, decided);
    rt.write_all(&out[..used])
}

fn say_nodes(rt: &impl Print, nodes: &[u64]) -> io::Result<()> {
    print!(rt; "nodes")?;
    for node in nodes {
        print!(rt; " {node}")?;
    }
    println!(rt; "")
}

fn say_metadata(rt: &impl Print, metadata: Option<&[u8]>) -> io::Result<()> {
    let Some(bytes) = metadata else {
        return println!(rt; "no metadata");
    };
    print!(rt; "metadata")?;
    for byte in bytes {
        print!(rt; " {byte}")?;
    }
    println!(rt; "")
}

fn say_stop(rt: &impl Print, sign: Option<StopSign>, decided: bool) -> io::Result<()> {
    let Some(stop) = sign else {
        return println!(rt; "no stop-sign");
    };
    let word = if decided { "decided" } else { "undecided" };
    println!(rt; "stop-sign {}, {word}", stop.config_id)?;
    say_nodes(rt, &stop.nodes[..stop.node_count.min(entry::NODES)])?;
    let bytes = &stop.metadata[..stop.metadata_len.min(entry::METADATA)];
    say_metadata(rt, stop.metadata_held.then_some(bytes))
}

// What a snapshot, of so many keys, says is decided.
fn say_snapshot(rt: &impl Print, words: &[u64], keys: Option<usize>) -> io::Result<()> {
    match keys {
        Some(n) => say_changes(rt, "keys", words, n, n),
        None => println!(rt; "no snapshot"),
    }
}

fn say_flag(rt: &impl Print, held: bool, name: &str) -> io::Result<()> {
    if held {
        return print!(rt; " {name}");
    }
    Ok(())
}

fn say_flags(rt: &impl Print, index: IndexRecord) -> io::Result<()> {
    print!(rt; "flags:")?;
    say_flag(rt, index.snapshot_held, "snapshot")?;
    say_flag(rt, index.stop_held, "stop-sign")?;
    say_flag(rt, index.stop.metadata_held, "metadata")?;
    println!(rt; "")
}

fn say_index(
    rt: &impl Print,
    index: IndexRecord,
    accepted: LogIndex,
    log: &[u64],
    snapshot: &[u64],
) -> io::Result<()> {
    let decided = index.decided.0;
    let compacted = index.compacted.0;
    say_flags(rt, index)?;
    println!(rt; "compacted {compacted}")?;
    println!(rt; "decided {decided}")?;
    println!(rt; "accepted {}", accepted.0)?;
    say_ballot(rt, "promise", index.promise)?;
    say_ballot(rt, "accepted round", index.accepted_round)?;
    say_snapshot(rt, snapshot, index.snapshot_held.then_some(index.keys))?;
    let told = decided.saturating_sub(compacted) as usize;
    say_changes(rt, "entries", log, index.retained, told)?;
    let sign = index.stop_held.then_some(index.stop);
    say_stop(rt, sign, index.decided == accepted)
}

fn say_refused(rt: &impl Print, refusal: Refusal, bytes: &[u8]) -> io::Result<()> {
    match refusal {
        Refusal::Damaged(at) => fault::explain(rt, bytes, at),
        _ => println!(rt; "the header, at byte 0, has an unknown format"),
    }
}

pub(crate) fn show(rt: &impl Print, bytes: &[u8]) -> io::Result<()> {
    let mut log = [0u64; entry::LOG_WORDS];
    let mut snapshot = [0u64; entry::SNAPSHOT_WORDS];
    match image::read(0, bytes, &mut log, &mut snapshot) {
        Ok((index, accepted)) => say_index(rt, index, accepted, &log, &snapshot),
        Err(refusal) => say_refused(rt, refusal, bytes),
    }
}
