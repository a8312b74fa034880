// The head that an accepted run leaves in a group, made here and compared.
ghost use Rattle.std.specs.Prelude.{◌≡◌, ◌≤◌, length};
ghost use Rattle.reader_exact.specs.Read.{group_number};
ghost use Rattle.reader_compare.specs.Places.{made_in};

use crate::compare_head;
use geometry::Geometry;
use group_bytes::{LARGEST_HEAD, head_left};

// A head of 10 blocks of 4096 bytes.
const SMALL_HEAD: usize = 40960;

fn small_buffer() -> [u8; 40960]
    ensures { 40960 ≡ length result }
{
    [0; 40960]
}

fn large_buffer() -> [u8; 163840]
    ensures { 163840 ≡ length result }
{
    [0; 163840]
}

// The number of a head, with a work buffer of its length. Where none is made, the bytes are refused whatever stands in that buffer.
fn with_buffer(g: Geometry, uuid: [u8; 16], k: u64, head: &[u8], work: &mut [u8]) -> u32
    requires { length work.old ≡ length head.now }
    ensures { result ≡ group_number g uuid k head.now }
{
    head_left(g, uuid, k, work);
    compare_head(g, k, work, head)
}

fn in_small_buffer(g: Geometry, uuid: [u8; 16], k: u64, head: &[u8]) -> u32
    requires { length head.now ≤ 40960 }
    ensures { result ≡ group_number g uuid k head.now }
{
    let n = head.len();
    let mut work = small_buffer();
    with_buffer(g, uuid, k, head, &mut work[..n])
}

fn in_large_buffer(g: Geometry, uuid: [u8; 16], k: u64, head: &[u8]) -> u32
    requires { length head.now ≤ 163840 }
    ensures { result ≡ group_number g uuid k head.now }
{
    let n = head.len();
    let mut work = large_buffer();
    with_buffer(g, uuid, k, head, &mut work[..n])
}

// The number of any group's head: 31, 29, 27, 30, or 0. To zero the large buffer costs more than to make a small head; bytes that are
// longer than any head are refused, so that they may be compared with any.
pub fn group_number(g: Geometry, uuid: [u8; 16], k: u64, head: &[u8]) -> u32
    ensures { result ≡ group_number g uuid k head.now }
{
    if head.len() <= SMALL_HEAD {
        return in_small_buffer(g, uuid, k, head);
    }
    if head.len() <= LARGEST_HEAD {
        return in_large_buffer(g, uuid, k, head);
    }
    compare_head(g, k, head, head)
}

// The same number. What is left there is made in `work` where that has a head's length, else in the reader's own buffer; the number is the
// same for every `work`.
pub fn group_number_in(g: Geometry, uuid: [u8; 16], agno: u64, head: &[u8], work: &mut [u8]) -> u32
    ensures { (result ≡ group_number g uuid agno head.now) × (work.new ≡ made_in g uuid agno work.old) }
{
    let made = head_left(g, uuid, agno, work);
    if made.number != 0 {
        return group_number(g, uuid, agno, head);
    }
    compare_head(g, agno, work, head)
}
