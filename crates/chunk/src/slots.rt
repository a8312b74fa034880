// One slot of the chunk, lent to its encoder; and all slots free.
ghost use Rattle.std.specs.Prelude.{◌≡◌, true, ◌+◌, ◌*◌, ◌<◌, ◌≤◌, ◌^◌, length};
ghost use Rattle.endian.specs.Bytes.{patch, zeros};
ghost use Rattle.endian.specs.Fields.{part};
ghost use Rattle.structs.specs.Sizes.{is_inode};
ghost use Rattle.inode.specs.Dinode.{free_bytes, dinode_number, dinode_bytes};
ghost use Rattle.chunk.specs.Slots.{slots as slots·of, free_slot};

use inode::{Dinode, encode_free};

// Inodes of a chunk.
pub const INODES: usize = 64;

// A slot of zeros, and a free inode over them.
fn blank(ino: u64, generation: u32, uuid: &[u8; 16], slot: &mut [u8])
    requires { is_inode (length slot.old) ≡ true }
    ensures { slot.new ≡ free_bytes ino generation uuid.now (zeros (length slot.old)) }
{
    let n = slot.len();
    endian::put_same(slot, 0, n, 0);
    encode_free(ino, generation, uuid, slot);
}

// Slot k, made free.
fn free_slot(ino: u64, generation: u32, uuid: &[u8; 16], size: usize, k: usize, buf: &mut [u8])
    requires { (is_inode size ≡ true) × (k * size + size ≤ length buf.old) }
    ensures { buf.new ≡ patch (k * size) (free_bytes ino generation uuid.now (zeros size)) buf.old }
{
    let at = k * size;
    blank(ino, generation, uuid, &mut buf[at..at + size]);
}

// Every slot, made free.
pub(crate) fn free_slots(first: u64, generation: u32, uuid: &[u8; 16], size: usize, buf: &mut [u8])
    requires { (is_inode size ≡ true) × (length buf.old ≡ 64 * size) × (first + 64 < 2 ^ 64) }
    ensures { buf.new ≡ slots·of (free_slot first generation uuid.now size) 0 64 }
{
    for i in 0..INODES {
        free_slot(first + (i as u64), generation, uuid, size, i, buf);
    }
}

// An inode over what stands in slot k.
pub(crate) fn put_inode(
    d: Dinode,
    fork: &[u8],
    uuid: &[u8; 16],
    size: usize,
    k: usize,
    buf: &mut [u8],
)
    requires { (dinode_number d (length fork.now) size ≡ 0) × (k * size + size ≤ length buf.old) }
    ensures { buf.new ≡ patch (k * size)
        (dinode_bytes d fork.now uuid.now (part (k * size) size buf.old)) buf.old }
{
    let at = k * size;
    d.encode(fork, uuid, &mut buf[at..at + size]);
}
