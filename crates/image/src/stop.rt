// A stop-sign's record: put, judged and loaded.
ghost use Rattle.std.specs.Prelude.{◌≡◌, true, map, ◌+◌, ◌*◌, ◌≤◌, length, take, drop, replicate};
ghost use Rattle.std.specs.Prelude.{if◌then◌else◌, IfSome};
ghost use Rattle.words.specs.Words.{laid, spliced};
ghost use Rattle.entry.specs.Limits.{most_nodes, most_metadata};
ghost use Rattle.entry.specs.Sign.{sign_formed, no_sign};
ghost use Rattle.records.specs.Sealed.{field, numbers, packed, unpacked, sealed};
ghost use Rattle.image.specs.declared.Want.TheVariants.{Stop};
ghost use Rattle.image.specs.Layout.{stop_fields, stop_size};
ghost use Rattle.image.specs.Reading.{sound_at, sign_at};
ghost use Rattle.image.specs.Inner.{SignFormed, size_at, sign_size, sign_bytes};

use super::header;
use entry::StopSign;

// How many bytes a stop-sign's record has, where one is held.
pub(crate) fn size(sign: Option<StopSign>) -> usize
    requires { IfSome sign SignFormed }
    ensures { result ≡ sign_size sign }
{
    let Some(stop) = sign else {
        return 0;
    };
    super::STOP + stop.node_count * 8 + stop.metadata_len
}

fn put_nodes(s: &mut [u8], at: usize, nodes: &[u64])
    requires nodes_len { length nodes.now ≤ most_nodes }
    requires nodes_in_bounds { at + length nodes.now * 8 ≤ length s.old }
    ensures { s.new
        ≡ spliced at (length nodes.now * 8) (packed (map (field 8) nodes.now)) s.old }
{
    let widths = [8usize; entry::NODES];
    records::inner::put_fields(s, at, &widths[..nodes.len()], nodes);
}

// Puts a stop-sign's record at `at`.
fn put_stop(s: &mut [u8], at: usize, stop: StopSign)
    requires stop_value { sign_formed stop ≡ true }
    requires metadata_len_in_bounds { at + stop_size stop.node_count stop.metadata_len ≤ length s.old }
    ensures { s.new
        ≡ spliced at (stop_size stop.node_count stop.metadata_len) (sealed (stop_fields stop))
        s.old }
{
    let count = stop.node_count;
    let used = stop.metadata_len;
    let widths = [2usize, 4, 1];
    let front = [super::STOP_MARK, stop.config_id as u64, count as u64];
    let here = at + (7 + count * 8);
    records::inner::put_fields(s, at, &widths, &front);
    put_nodes(s, at + 7, &stop.nodes[..count]);
    records::inner::put_big(s, here, 1, used as u64);
    records::inner::put_bytes(s, here + 1, &stop.metadata[..used]);
    records::inner::put_sum(s, at, 8 + count * 8 + used);
}

pub(crate) fn put(s: &mut [u8], at: usize, sign: Option<StopSign>)
    requires sign_value { IfSome sign SignFormed }
    requires sign_in_bounds { at + sign_size sign ≤ length s.old }
    ensures { s.new ≡ spliced at (sign_size sign) (sign_bytes sign) s.old }
{
    if let Some(stop) = sign {
        put_stop(s, at, stop);
    }
}

// How many bytes the sound record of a stop-sign has that stands at `at`, if one does.
pub(crate) fn stop_at(s: &[u8], at: usize, metadata: bool) -> Option<usize>
    requires { at ≤ length s.now }
    ensures { result ≡ size_at 0 (Stop metadata) (drop at s.now) }
{
    let left = s.len() - at;
    if left < super::STOP {
        return None;
    }
    let count = records::inner::get_big(s, at + 6, 1) as usize;
    if entry::NODES < count {
        return None;
    }
    let nodes = count * 8;
    if left < super::STOP + nodes {
        return None;
    }
    let used = records::inner::get_big(s, at + (7 + nodes), 1) as usize;
    if entry::METADATA < used {
        return None;
    }
    let size = super::STOP + nodes + used;
    if !records::inner::sealed_at(s, at, size - 2) {
        return None;
    }
    let marked = records::inner::get_big(s, at, 2) == super::STOP_MARK;
    (marked & ((1 <= count) & (metadata | (used == 0)))).then_some(size)
}

// Loads n nodes from `at` on.
fn load_nodes(s: &[u8], at: usize, n: usize) -> [u64; entry::NODES]
    requires n_le_most_nodes { n ≤ most_nodes }
    requires n_in_bounds { at + n * 8 ≤ length s.now }
    ensures { result ≡ laid most_nodes (numbers (unpacked (replicate n 8) (drop at s.now))) }
{
    let widths = [8usize; entry::NODES];
    let mut nodes = [0u64; entry::NODES];
    records::inner::get_fields(s, at, &widths[..n], &mut nodes[..n]);
    nodes
}

// Loads n bytes of metadata from `at` on.
fn load_metadata(s: &[u8], at: usize, n: usize) -> [u8; entry::METADATA]
    requires n_le_most_metadata { n ≤ most_metadata }
    requires n_in_bounds { at + n ≤ length s.now }
    ensures { result ≡ laid most_metadata (take n (drop at s.now)) }
{
    let mut metadata = [0u8; entry::METADATA];
    let to = at + n;
    metadata[..n].copy_from_slice(&s[at..to]);
    metadata
}

// Loads the stop-sign whose sound record stands at `at`.
fn load_stop(s: &[u8], at: usize, metadata: bool) -> StopSign
    requires at_in_bounds { at ≤ length s.now }
    requires s_value { sound_at 0 (Stop metadata) (drop at s.now) ≡ true }
    ensures { result ≡ sign_at metadata (drop at s.now) }
{
    let config_id = header::four_at(s, at + 2);
    let count = records::inner::get_big(s, at + 6, 1) as usize;
    let here = at + (7 + count * 8);
    let used = records::inner::get_big(s, here, 1) as usize;
    let nodes = load_nodes(s, at + 7, count);
    let bytes = load_metadata(s, here + 1, used);
    StopSign {
        config_id,
        node_count: count,
        nodes,
        metadata_held: metadata,
        metadata_len: used,
        metadata: bytes,
    }
}

// The stop-sign at `at` where one is held, and else the one that stands for none.
// It is no Option: the C interface has a flag and a stop-sign side by side in the record that it is for.
pub(crate) fn load_if(s: &[u8], at: usize, held: bool, metadata: bool) -> StopSign
    requires at_in_bounds { at ≤ length s.now }
    requires s_value { held ≡ true → sound_at 0 (Stop metadata) (drop at s.now) ≡ true }
    ensures { result ≡ (if held then sign_at metadata (drop at s.now) else no_sign) }
{
    if held {
        return load_stop(s, at, metadata);
    }
    entry::inner::no_sign()
}
