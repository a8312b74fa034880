// One pass over a disk as a state by value: it says which bytes it wants next, and is fed with them. First the sector that names how long a
// head is, then group 0's head, the other heads in rising order, and the log's first block. The first refusal ends it.
#![tactic(auto)]

ghost use Rattle.std.specs.Prelude.{◌≡◌};
ghost use Rattle.head_bytes.specs.Head.{head_length};
ghost use Rattle.reader_pass.specs.Passing.{pass_begun, byte_in, place_byte, offset_of, stage_length, is_ended, pass_wanted, pass_verdict};
ghost use Rattle.reader_pass.specs.Passing.{pass_ended_by, stage_at, following, went_on, fed_short, fed_named, fed_first, pass_fed_head, fed_log};
ghost use Rattle.reader_pass.specs.Passing.{fed_whole, pass_fed, work_in, worked};
ghost use Rattle.reader_pass.specs.declared.Stage.TheVariants.{Heads};

use geometry::Geometry;
use geometry_places::units::agb_to_byte;
use geometry_places::{ByteOffset, GroupBlock};
use group_bytes::head_length;
use reader::{read_group0, read_log};
use reader_compare::heads::group_number_in;
use reader_names::{LEAST_SECTOR, named_by};
use refusals::{NOT_LEFT, WRONG_LENGTH};

// What is fed next.
#[derive(Clone, Copy)]
pub enum Stage {
    Naming,
    First,
    Heads,
    Log,
    Ended,
}

// The refusal that ended it, or 0; the place that is fed next, or where it ended: a group, and for the log's block the number of groups;
// and the geometry and the UUID that are known so far. Its fields are private: only `begin` and `feed` make one.
#[derive(Clone, Copy)]
pub struct Pass {
    stage: Stage,
    number: u32,
    place: u64,
    geometry: Geometry,
    uuid: [u8; 16],
}

// The bytes that are to be read next, unless all is done.
#[derive(Clone, Copy)]
pub struct Wanted {
    pub offset: u64,
    pub length: usize,
    pub done: bool,
}

// The number is 0 for an accepted disk; geometry and UUID are those that are known so far.
#[derive(Clone, Copy)]
pub struct Verdict {
    pub number: u32,
    pub place: u64,
    pub geometry: Geometry,
    pub uuid: [u8; 16],
}

// A pass that was fed nothing yet.
pub fn begin() -> Pass
    ensures { result ≡ pass_begun }
{
    let geometry = Geometry::zero();
    let uuid = [0u8; 16];
    Pass {
        stage: Stage::Naming,
        number: 0,
        place: 0,
        geometry,
        uuid,
    }
}

// The offset, or for a place that is not there one behind every file.
fn byte_in(place: Result<ByteOffset, u32>) -> u64
    ensures { result ≡ byte_in place }
{
    match place {
        Ok(at) => at.0,
        Err(_) => u64::MAX,
    }
}

// Where block b of group k begins.
fn place_byte(g: Geometry, k: u64, b: u64) -> u64
    ensures { result ≡ place_byte g k b }
{
    let place = agb_to_byte(g, GroupBlock(k, b));
    byte_in(place)
}

// Where the next bytes stand.
fn offset_of(stage: Stage, g: Geometry, k: u64) -> u64
    ensures { result ≡ offset_of stage g k }
{
    match stage {
        Stage::Naming => 0,
        Stage::First => 0,
        Stage::Heads => place_byte(g, k, 0),
        Stage::Log => place_byte(g, g.logagno, g.log_agbno),
        Stage::Ended => 0,
    }
}

// Bytes of a head.
fn head_bytes(g: Geometry) -> usize
    ensures { result ≡ head_length g }
{
    let f = g.features;
    head_length(f, g.sectsize, g.blocksize)
}

// How many the next bytes are.
fn length_of(stage: Stage, g: Geometry) -> usize
    ensures { result ≡ stage_length stage g }
{
    match stage {
        Stage::Naming => LEAST_SECTOR,
        Stage::First => head_bytes(g),
        Stage::Heads => head_bytes(g),
        Stage::Log => g.blocksize as usize,
        Stage::Ended => 0,
    }
}

// Whether nothing more is wanted.
fn is_ended(stage: Stage) -> bool
    ensures { result ≡ is_ended stage }
{
    match stage {
        Stage::Naming => false,
        Stage::First => false,
        Stage::Heads => false,
        Stage::Log => false,
        Stage::Ended => true,
    }
}

// Where the next bytes stand, and how many they are.
pub fn wants(p: Pass) -> Wanted
    ensures { result ≡ pass_wanted p }
{
    let stage = p.stage;
    let g = p.geometry;
    Wanted {
        offset: offset_of(stage, g, p.place),
        length: length_of(stage, g),
        done: is_ended(stage),
    }
}

// It ends at the place that came next.
fn ended_by(p: Pass, n: u32) -> Pass
    ensures { result ≡ pass_ended_by p n }
{
    let geometry = p.geometry;
    let uuid = p.uuid;
    Pass {
        stage: Stage::Ended,
        number: n,
        place: p.place,
        geometry,
        uuid,
    }
}

// What place k is: a head, or behind the last head the log's block.
fn stage_at(g: Geometry, k: u64) -> Stage
    ensures { result ≡ stage_at g k }
{
    if k < g.agcount {
        return Stage::Heads;
    }
    Stage::Log
}

// The place behind this one; behind the log's block there is none.
fn following_of(k: u64, agcount: u64) -> u64
    ensures { result ≡ following k agcount }
{
    if k < agcount {
        return k + 1;
    }
    k
}

// A head has the number n, and with it come geometry and UUID; place k is next.
fn went_on(p: Pass, n: u32, geometry: Geometry, uuid: [u8; 16], k: u64) -> Pass
    ensures { result ≡ went_on p n geometry uuid k }
{
    if n != 0 {
        return ended_by(p, n);
    }
    let stage = stage_at(geometry, k);
    Pass {
        stage,
        number: 0,
        place: k,
        geometry,
        uuid,
    }
}

// The first sector: how long a head is.
fn feed_named(p: Pass, bytes: &[u8]) -> Pass
    ensures { result ≡ fed_named p bytes.now }
{
    let named = named_by(bytes, false); // what plain sizing refuses, roomy sizing refuses too, and a head is as long under both
    if named.number != 0 {
        return ended_by(p, NOT_LEFT);
    }
    let geometry = named.geometry;
    let uuid = p.uuid;
    Pass {
        stage: Stage::First,
        number: 0,
        place: 0,
        geometry,
        uuid,
    }
}

// Group 0's head.
fn feed_first(p: Pass, bytes: &[u8]) -> Pass
    ensures { result ≡ fed_first p bytes.now }
{
    let found = read_group0(bytes);
    let geometry = found.geometry;
    let uuid = found.uuid;
    went_on(p, found.number, geometry, uuid, 1)
}

// The head of a group behind group 0.
fn feed_head(p: Pass, bytes: &[u8], work: &mut [u8]) -> Pass
    ensures { (result ≡ pass_fed_head p bytes.now) × (work.new ≡ work_in Heads p work.old) }
{
    let geometry = p.geometry;
    let uuid = p.uuid;
    let n = group_number_in(geometry, uuid, p.place, bytes, work);
    let next = following_of(p.place, geometry.agcount);
    went_on(p, n, geometry, uuid, next)
}

// The log's first block.
fn feed_log(p: Pass, bytes: &[u8]) -> Pass
    ensures { result ≡ fed_log p bytes.now }
{
    let geometry = p.geometry;
    let uuid = p.uuid;
    let n = read_log(geometry, uuid, bytes);
    ended_by(p, n)
}

// Bytes of another length than was asked for.
fn feed_short(stage: Stage, p: Pass) -> Pass
    ensures { result ≡ fed_short stage p }
{
    if is_ended(stage) {
        return p;
    }
    ended_by(p, WRONG_LENGTH)
}

// As many bytes as were asked for.
fn feed_whole(stage: Stage, p: Pass, bytes: &[u8], work: &mut [u8]) -> Pass
    ensures { (result ≡ fed_whole stage p bytes.now) × (work.new ≡ work_in stage p work.old) }
{
    match stage {
        Stage::Naming => feed_named(p, bytes),
        Stage::First => feed_first(p, bytes),
        Stage::Heads => feed_head(p, bytes, work),
        Stage::Log => feed_log(p, bytes),
        Stage::Ended => p,
    }
}

// The bytes that were wanted. In `work` the heads are made that they are compared with, if it is as long as a head; the answer is the same
// for every `work`.
pub fn feed(p: Pass, bytes: &[u8], work: &mut [u8]) -> Pass
    ensures { (result ≡ pass_fed p bytes.now) × (work.new ≡ worked p bytes.now work.old) }
{
    let stage = p.stage;
    let g = p.geometry;
    if bytes.len() != length_of(stage, g) {
        return feed_short(stage, p);
    }
    feed_whole(stage, p, bytes, work)
}

// What is said of the disk: where it isn't ended, 27 for the bytes that are missing.
pub fn finish(p: Pass) -> Verdict
    ensures { result ≡ pass_verdict p }
{
    let stage = p.stage;
    let geometry = p.geometry;
    let uuid = p.uuid;
    if is_ended(stage) {
        return Verdict {
            number: p.number,
            place: p.place,
            geometry,
            uuid,
        };
    }
    Verdict {
        number: WRONG_LENGTH,
        place: p.place,
        geometry,
        uuid,
    }
}
