// The conversions between the four units of a block's place, and the inode number.
ghost use Rattle.std.specs.Prelude.{◌≡◌, ◌+◌, ◌*◌, ◌/◌, ◌%◌, ◌^◌, ◌<◌};
ghost use Rattle.geometry_layout.specs.Places.{fsb_of, ino_of, daddr_of, byte_of};
ghost use Rattle.geometry_places.specs.Answers.{to_fs_block, to_disk_address, to_byte_offset, to_group_block, inode_number};

use crate::refusal::{accepted, place_refusal, slot_refusal};
use crate::{ByteOffset, DiskAddress, FsBlock, GroupBlock};
use arith::numbers::remainder;
use geometry::Geometry;

// x shifted to the left by l bits.
fn shifted(x: u64, l: u8) -> u64
    requires { (l < 64) × (x * 2 ^ l < 2 ^ 64) }
    ensures { result ≡ x * 2 ^ l }
{
    x << l
}

// The file system block of block b of group k.
pub(crate) fn fsb_of(log: u8, k: u64, b: u64) -> u64
    requires { (log < 64) × (k * 2 ^ log + b < 2 ^ 64) }
    ensures { result ≡ fsb_of log k b }
{
    (k << log) + b
}

// The inode number of a slot of block b of group k.
pub(crate) fn ino_of(log: u8, inolog: u8, k: u64, b: u64, slot: u64) -> u64
    requires { (log < 64) × (inolog < 64) × (k * 2 ^ log + b < 2 ^ 64) × ((k * 2 ^ log + b) * 2 ^ inolog + slot < 2 ^ 64) }
    ensures { result ≡ ino_of log inolog k b slot }
{
    shifted(fsb_of(log, k, b), inolog) + slot
}

// The 512-byte address of block b of group k.
fn daddr_of(bs: u64, s: u64, k: u64, b: u64) -> u64
    requires { (k * s + b < 2 ^ 64) × ((k * s + b) * (bs / 512) < 2 ^ 64) }
    ensures { result ≡ daddr_of bs s k b }
{
    (k * s + b) * (bs / Geometry::BBSIZE)
}

// The byte offset of block b of group k.
fn byte_of(bs: u64, s: u64, k: u64, b: u64) -> u64
    requires { (k * s + b < 2 ^ 64) × ((k * s + b) * bs < 2 ^ 64) }
    ensures { result ≡ byte_of bs s k b }
{
    (k * s + b) * bs
}

// The file system block of a block of a group.
pub fn agb_to_fsb(g: Geometry, b: GroupBlock) -> Result<FsBlock, u32>
    ensures { result ≡ to_fs_block g b }
{
    accepted(place_refusal(g, b.0, b.1))?;
    Ok(FsBlock(fsb_of(g.agblklog, b.0, b.1)))
}

// The 512-byte address of a block of a group.
pub fn agb_to_daddr(g: Geometry, b: GroupBlock) -> Result<DiskAddress, u32>
    ensures { result ≡ to_disk_address g b }
{
    accepted(place_refusal(g, b.0, b.1))?;
    let at = daddr_of(g.blocksize as u64, g.agsize, b.0, b.1);
    Ok(DiskAddress(at))
}

// The byte offset of a block of a group.
pub fn agb_to_byte(g: Geometry, b: GroupBlock) -> Result<ByteOffset, u32>
    ensures { result ≡ to_byte_offset g b }
{
    accepted(place_refusal(g, b.0, b.1))?;
    let at = byte_of(g.blocksize as u64, g.agsize, b.0, b.1);
    Ok(ByteOffset(at))
}

// x without its lowest bits.
fn high(x: u64, log: u8) -> u64
    ensures { result ≡ x / 2 ^ log }
{
    if log < 64 { x >> log } else { 0 }
}

// 2 to the power log.
fn power(log: u8) -> u64
    requires { log < 64 }
    ensures { result ≡ 2 ^ log }
{
    shifted(1, log)
}

// The lowest bits of x.
fn low(x: u64, log: u8) -> u64
    ensures { result ≡ x % 2 ^ log }
{
    if log < 64 {
        remainder(x, power(log))
    } else {
        x
    }
}

// The group and block of a file system block.
pub fn fsb_to_agb(g: Geometry, f: FsBlock) -> Result<GroupBlock, u32>
    ensures { result ≡ to_group_block g f }
{
    let k = high(f.0, g.agblklog);
    let b = low(f.0, g.agblklog);
    accepted(place_refusal(g, k, b))?;
    Ok(GroupBlock(k, b))
}

// The inode number of a slot of a block of a group.
pub fn ino(g: Geometry, b: GroupBlock, slot: u64) -> Result<u64, u32>
    ensures { result ≡ inode_number g b slot }
{
    accepted(slot_refusal(g, b.0, b.1, slot))?;
    Ok(ino_of(g.agblklog, g.inopblog, b.0, b.1, slot))
}
