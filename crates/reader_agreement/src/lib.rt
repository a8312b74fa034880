// How far the bytes of a refused place agree with those that a run leaves there, so that a reader can say where they first differ.
#![tactic(auto)]

ghost use Rattle.std.specs.Prelude.{◌≡◌, ◌≤◌, length};
ghost use Rattle.reader_agreement.specs.Agreed.{common, nothing_left as unknown_def, head_agreed, log_agreed, first_as, farther as farther_def, first_agreed, agreed_at};

use geometry::Geometry;
use group_bytes::{LARGEST_HEAD, head_left, log_block};
use reader_names::{named_by, uuid_of};
use reader_pass::Verdict;

// How many of the first bytes agree; not known where no run leaves anything to compare with, and then 0.
#[derive(Clone, Copy)]
pub struct Agreement {
    pub known: bool,
    pub count: usize,
}

fn large_buffer() -> [u8; 163840]
    ensures { 163840 ≡ length result }
{
    [0; 163840]
}

fn unknown() -> Agreement
    ensures { result ≡ unknown_def }
{
    Agreement {
        known: false,
        count: 0,
    }
}

// How many bytes the slices have in common at their start.
pub fn common_prefix(a: &[u8], b: &[u8]) -> usize
    ensures { result ≡ common a.now b.now }
{
    let n = a.len().min(b.len());
    for i in 0..n {
        if a[i] != b[i] {
            return i;
        }
    }
    n
}

// Group k's head, with a work buffer of its length.
fn with_head(g: Geometry, uuid: [u8; 16], k: u64, head: &[u8], work: &mut [u8]) -> Agreement
    requires { (length work.old ≡ length head.now) × (length head.now ≤ 163840) }
    ensures { result ≡ head_agreed g uuid k head.now }
{
    let made = head_left(g, uuid, k, work);
    if made.number != 0 {
        return unknown();
    }
    Agreement {
        known: true,
        count: common_prefix(work, head),
    }
}

// Group k's head.
fn head_agreement(g: Geometry, uuid: [u8; 16], k: u64, head: &[u8]) -> Agreement
    ensures { result ≡ head_agreed g uuid k head.now }
{
    if LARGEST_HEAD < head.len() {
        return unknown();
    }
    let n = head.len();
    let mut work = large_buffer();
    with_head(g, uuid, k, head, &mut work[..n])
}

// The log's first block, with a work buffer of its length.
fn with_log(g: Geometry, uuid: [u8; 16], block: &[u8], work: &mut [u8]) -> Agreement
    requires { (length work.old ≡ length block.now) × (length block.now ≤ 163840) }
    ensures { result ≡ log_agreed g uuid block.now }
{
    if log_block(g, uuid, work) != 0 {
        return unknown();
    }
    Agreement {
        known: true,
        count: common_prefix(work, block),
    }
}

// The log's first block.
fn log_agreement(g: Geometry, uuid: [u8; 16], block: &[u8]) -> Agreement
    ensures { result ≡ log_agreed g uuid block.now }
{
    if LARGEST_HEAD < block.len() {
        return unknown();
    }
    let n = block.len();
    let mut work = large_buffer();
    with_log(g, uuid, block, &mut work[..n])
}

// Group 0's head under a sizing of the log.
fn first_as(head: &[u8], roomy: bool) -> Agreement
    ensures { result ≡ first_as roomy head.now }
{
    let named = named_by(head, roomy);
    if named.number != 0 {
        return unknown();
    }
    let geometry = named.geometry;
    let uuid = uuid_of(head);
    head_agreement(geometry, uuid, 0, head)
}

// The one that goes farther, and the second where the first isn't known.
fn farther(a: Agreement, b: Agreement) -> Agreement
    ensures { result ≡ farther_def a b }
{
    if !a.known {
        return b;
    }
    if b.count <= a.count {
        return a;
    }
    b
}

// Group 0's head under the sizing that goes farther.
fn first_agreement(head: &[u8]) -> Agreement
    ensures { result ≡ first_agreed head.now }
{
    let plain = first_as(head, false);
    let roomy = first_as(head, true);
    farther(plain, roomy)
}

// How far the bytes of the verdict's place agree with what a run leaves there.
pub fn agreed_at(v: Verdict, bytes: &[u8]) -> Agreement
    ensures { result ≡ agreed_at v bytes.now }
{
    let g = v.geometry;
    let uuid = v.uuid;
    if v.place == 0 {
        return first_agreement(bytes);
    }
    if v.place < g.agcount {
        return head_agreement(g, uuid, v.place, bytes);
    }
    log_agreement(g, uuid, bytes)
}
