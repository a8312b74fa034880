// An empty directory within its inode: `struct xfs_dir2_sf_hdr`.
ghost use Rattle.std.specs.Prelude.{◌≡◌, [], ◌∷◌, ◌++◌};
ghost use Rattle.endian.specs.Bytes.{be_bytes};
ghost use Rattle.inode.specs.Directory.{EmptyDir};

// The first `len` bytes are the data fork, and the others zero.
#[derive(Clone, Copy)]
pub struct SfDir {
    pub bytes: [u8; 10],
    pub len: usize,
}

fn short(parent: u32) -> SfDir
    ensures { (result.bytes ≡ 0 ∷ 0 ∷ (be_bytes 4 parent ++ (0 ∷ 0 ∷ 0 ∷ 0 ∷ []))) × (result.len ≡ 6) }
{
    let mut bytes = [0u8; 10];
    endian::put32(&mut bytes, 2, parent); // parent; count and i8count, the bytes before it, are 0
    SfDir { bytes, len: 6 }
}

fn long(parent: u64) -> SfDir
    ensures { (result.bytes ≡ 0 ∷ 1 ∷ be_bytes 8 parent) × (result.len ≡ 10) }
{
    let mut bytes = [0u8; 10];
    bytes[1] = 1; // i8count
    endian::put64(&mut bytes, 2, parent); // parent
    SfDir { bytes, len: 10 }
}

// No entries, and the parent in 4 bytes, or in 8 where it passes 32 bits.
pub fn empty_sf_dir(parent: u64) -> SfDir
    ensures { EmptyDir parent result.bytes result.len }
{
    match u32::try_from(parent) {
        Ok(narrow) => short(narrow),
        Err(_) => long(parent),
    }
}
