// The special owners of a reverse mapping, −3 to −8 in 64 bits (XFS_RMAP_OWN_*).
ghost use Rattle.std.specs.Prelude.{◌≡◌};
ghost use Rattle.btree.specs.Owners.{owners};

// Header blocks of a group.
pub const FS: u64 = 0xffff_ffff_ffff_fffd;

// The log.
pub const LOG: u64 = 0xffff_ffff_ffff_fffc;

// The free space trees, the reverse mapping tree and the free list.
pub const AG: u64 = 0xffff_ffff_ffff_fffb;

// The inode trees.
pub const INOBT: u64 = 0xffff_ffff_ffff_fffa;

// Inodes.
pub const INODES: u64 = 0xffff_ffff_ffff_fff9;

// The reference count tree.
pub const REFC: u64 = 0xffff_ffff_ffff_fff8;

// All of them, from −3 on.
pub fn all() -> [u64; 6]
    ensures { result ≡ owners }
{
    [FS, LOG, AG, INOBT, INODES, REFC]
}
