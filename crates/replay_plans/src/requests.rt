// What `parse` says of input records: 32 numbers, the label's 12 bytes and the UUID's 16.
use crate::rows::{Answer, features, put};
use params::{Label, Params, Timestamp};

// Where the label and the UUID stand, and where the answer ends.
const LABEL: usize = 256;

const UUID: usize = 268;

const END: usize = 284;

// Whether the option is given, and its number.
fn put_option(row: &mut [u8; 16384], k: usize, option: Option<u64>) {
    match option {
        Some(n) => put(row, k, &[1, n]),
        None => put(row, k, &[0, 0]),
    }
}

fn wide32(option: Option<u32>) -> Option<u64> {
    match option {
        Some(n) => Some(n as u64),
        None => None,
    }
}

fn wide8(option: Option<u8>) -> Option<u64> {
    match option {
        Some(n) => Some(n as u64),
        None => None,
    }
}

fn put_sizes(row: &mut [u8; 16384], p: Params) {
    let block = p.block_size;
    let sector = p.sector_size;
    let inode = p.inode_size;
    let imaxpct = p.imaxpct;
    put_option(row, 6, wide32(block));
    put_option(row, 8, wide32(sector));
    put_option(row, 10, wide32(inode));
    put_option(row, 16, wide8(imaxpct));
}

fn put_options(row: &mut [u8; 16384], p: Params) {
    let size = p.size;
    let agcount = p.agcount;
    let agsize = p.agsize;
    let seed = p.gen_seed;
    put_option(row, 4, size);
    put_option(row, 12, agcount);
    put_option(row, 14, agsize);
    put_option(row, 18, seed);
}

// Whether a time is given; the number and the value that an inode with bigtime stores of it.
fn put_time(row: &mut [u8; 16384], time: Option<Timestamp>) {
    match time {
        Some(t) => {
            let stored = inode_time::encode_time(t, true);
            put(row, 27, &[1, u64::from(stored.number), stored.value]);
        }
        None => put(row, 27, &[0, 0, 0]),
    }
}

fn put_label(row: &mut [u8; 16384], label: Label) {
    let text = label.bytes;
    put(row, 30, &[label.length as u64]);
    endian::put_bytes(row, LABEL, &text);
}

fn put_uuid(row: &mut [u8; 16384], uuid: Option<[u8; 16]>) {
    let bytes = uuid.unwrap_or([0; 16]);
    endian::put_bytes(row, UUID, &bytes);
    put(row, 31, &[u64::from(uuid.is_some())]);
}

fn put_params(row: &mut [u8; 16384], p: Params) {
    let label = p.label;
    let uuid = p.uuid;
    let time = p.time;
    put_options(row, p);
    put_sizes(row, p);
    put(row, 20, &features(p.features));
    put_time(row, time);
    put_label(row, label);
    put_uuid(row, uuid);
}

pub(crate) fn request(records: &[u8], row: &mut [u8; 16384]) -> Answer {
    let r = request::parse(records);
    let p = r.params;
    put(row, 0, &[u64::from(r.number), r.device]);
    put(row, 2, &[u64::from(r.logical), u64::from(r.physical)]);
    put_params(row, p);
    Answer {
        number: r.number,
        length: END,
    }
}
