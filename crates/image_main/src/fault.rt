// What is wrong with a bad image: which record is bad, where it stands, and why.
use image::Head;
use std::io;

// Why the header is no log's.
fn why_head(bytes: &[u8]) -> &'static str {
    if bytes.len() < 2 {
        return "is cut short";
    }
    if records::inner::get_big(bytes, 0, 2) != image::HEAD_MARK {
        return "has another mark: this is no image";
    }
    if bytes.len() < image::HEAD {
        return "is cut short";
    }
    if !records::inner::sealed_at(bytes, 0, image::HEAD - 2) {
        return "has a sum that is not its bytes'";
    }
    if !image::inner::flags_known(bytes[4]) {
        return "has a flag that there is not";
    }
    "has numbers or flags that no log has"
}

// Why the record of a key or an entry, with this mark, is not sound.
fn why_change(bytes: &[u8], at: usize, mark: u64) -> &'static str {
    if bytes.len() <= at {
        return "is missing";
    }
    if bytes.len() - at < image::CHANGE {
        return "is cut short";
    }
    if records::inner::get_big(bytes, at, 2) != mark {
        return "has another mark";
    }
    if !records::inner::sealed_at(bytes, at, image::CHANGE - 2) {
        return "has a sum that is not its bytes'";
    }
    if !entry::place_formed(records::inner::get_big(bytes, at + 10, 8)) {
        return "has a place that there is not";
    }
    "has a key that is not above the one before"
}

// Why the record of a stop-sign is not sound.
fn why_stop(bytes: &[u8], at: usize) -> &'static str {
    if bytes.len() <= at {
        return "is missing";
    }
    let left = bytes.len() - at;
    if left < image::STOP {
        return "is cut short";
    }
    if records::inner::get_big(bytes, at, 2) != image::STOP_MARK {
        return "has another mark";
    }
    let count = records::inner::get_big(bytes, at + 6, 1) as usize;
    if count == 0 {
        return "has no node";
    }
    if entry::NODES < count {
        return "has more than seven nodes";
    }
    if left < image::STOP + count * 8 {
        return "is cut short";
    }
    let used = records::inner::get_big(bytes, at + (7 + count * 8), 1) as usize;
    if entry::METADATA < used {
        return "has more than 32 bytes of metadata";
    }
    if left < image::STOP + count * 8 + used {
        return "is cut short";
    }
    if !records::inner::sealed_at(bytes, at, image::STOP - 2 + count * 8 + used) {
        return "has a sum that is not its bytes'";
    }
    "has metadata, and the header says that there is none"
}

// Which of n records of one kind, the first of which stands at `first`, stands at `at`.
fn say_place(rt: &impl Print, kind: &str, at: usize, first: usize, n: usize) -> io::Result<()> {
    let i = at.saturating_sub(first) / image::CHANGE;
    print!(rt; "{kind} {} of {n}, at byte {at}, ", i + 1)
}

// What is wrong at an offset behind a sound header.
fn explain_record(rt: &impl Print, bytes: &[u8], at: usize, h: Head) -> io::Result<()> {
    let keys = h.keys.min(entry::KEYS);
    let entries = h.entries.min(entry::ENTRIES);
    let keys_end = image::HEAD + keys * image::CHANGE;
    let entries_end = keys_end + entries * image::CHANGE;
    if at < keys_end {
        say_place(rt, "key", at, image::HEAD, keys)?;
        return println!(rt; "{}", why_change(bytes, at, image::KEY_MARK));
    }
    if at < entries_end {
        say_place(rt, "entry", at, keys_end, entries)?;
        return println!(rt; "{}", why_change(bytes, at, image::ENTRY_MARK));
    }
    if h.stop & (at == entries_end) {
        return println!(rt; "the stop-sign, at byte {at}, {}", why_stop(bytes, at));
    }
    println!(rt; "from byte {at} on there are bytes that no record has")
}

fn explain_head(rt: &impl Print, bytes: &[u8]) -> io::Result<()> {
    println!(rt; "the header, at byte 0, {}", why_head(bytes))
}

pub(crate) fn explain(rt: &impl Print, bytes: &[u8], at: usize) -> io::Result<()> {
    if bytes.len() < image::HEAD {
        return explain_head(rt, bytes);
    }
    if at == 0 {
        return explain_head(rt, bytes);
    }
    explain_record(rt, bytes, at, image::inner::head_at(bytes))
}
