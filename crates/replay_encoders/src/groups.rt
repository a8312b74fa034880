// Group headers, leaf block, superblock. The parameters are the structure's fields in its own order, then the UUID, unless it says
// otherwise.
use crate::cases::{byte, bytes_at, geometry_of, half};
use ag::{Agf, Agi};
use replay_frames::{behind, long, records, word};
use sb::SbState;

pub(crate) fn agf(p: &[u8], sector: &mut [u8]) -> u32 {
    let uuid = bytes_at(p, 72);
    let a = Agf {
        seqno: word(p, 0),
        length: word(p, 4),
        bno_root: word(p, 8),
        bno_level: word(p, 12),
        cnt_root: word(p, 16),
        cnt_level: word(p, 20),
        rmap_root: word(p, 24),
        rmap_level: word(p, 28),
        rmap_blocks: word(p, 32),
        refcount_root: word(p, 36),
        refcount_level: word(p, 40),
        refcount_blocks: word(p, 44),
        flfirst: word(p, 48),
        fllast: word(p, 52),
        flcount: word(p, 56),
        freeblks: word(p, 60),
        longest: word(p, 64),
        btreeblks: word(p, 68),
    };
    let made = a.encode(&uuid, sector);
    made.number
}

pub(crate) fn agi(p: &[u8], sector: &mut [u8]) -> u32 {
    let uuid = bytes_at(p, 44);
    let a = Agi {
        seqno: word(p, 0),
        length: word(p, 4),
        count: word(p, 8),
        root: word(p, 12),
        level: word(p, 16),
        freecount: word(p, 20),
        newino: word(p, 24),
        free_root: word(p, 28),
        free_level: word(p, 32),
        iblocks: word(p, 36),
        fblocks: word(p, 40),
    };
    let made = a.encode(&uuid, sector);
    made.number
}

// seqno, first, UUID, the count (8), 64 blocks.
pub(crate) fn agfl(p: &[u8], sector: &mut [u8]) -> u32 {
    let uuid = bytes_at(p, 8);
    let list = records(behind(p, 32), 4, |bytes| word(bytes, 0));
    let count = long(p, 24) as usize;
    let made = ag::encode_agfl(word(p, 0), &uuid, word(p, 4), list, count, sector);
    made.number
}

// magic, daddr (8), agno, UUID, numrecs (2), and the records.
pub(crate) fn leaf(p: &[u8], block: &mut [u8]) -> u32 {
    let uuid = bytes_at(p, 16);
    let Some(recs) = p.get(34..) else {
        return refusals::MALFORMED;
    };
    let made = btree::leaf_block(
        word(p, 0),
        long(p, 4),
        word(p, 12),
        &uuid,
        recs,
        half(p, 32),
        block,
    );
    made.number
}

// The geometry, then UUID, six numbers (8) and whether it is in progress (1).
pub(crate) fn superblock(p: &[u8], sector: &mut [u8]) -> u32 {
    let g = geometry_of(p);
    let uuid = bytes_at(p, 220);
    let s = SbState {
        uuid,
        rootino: long(p, 236),
        rbmino: long(p, 244),
        rsumino: long(p, 252),
        icount: long(p, 260),
        ifree: long(p, 268),
        fdblocks: long(p, 276),
        inprogress: byte(p, 284) == 1,
    };
    let made = sb::encode(g, s, sector);
    made.number
}
